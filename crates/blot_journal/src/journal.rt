//! An open journal.
ghost use Rattle.std.specs.Prelude.{◌≡◌, ◌↔◌, ◌+◌, ◌<◌, ◌≤◌, ◌^◌, ◌++◌, [], ℕ, List, false, true, length, take, drop, Err, IfErr, IfOk, IsErrOf, IsOk, IsTrue, OnErr, OnOk};
ghost use Rattle.std.specs.List.{concat};
ghost use Rattle.blot_journal.specs.declared.journal.JournalFault.TheVariants.{NoMemory as OutOfMemory};
ghost use Rattle.blot_journal.specs.Device.{LeavesOnly, Only};
ghost use Rattle.blot_journal.specs.File.{IsWhole, Stands, StandsBeforeOrAfter, text_of};
ghost use Rattle.blot_journal.specs.Journal.{StandsAmong, contents, text_in_journal, told_by_journal};
ghost use Rattle.blot_journal.specs.Recovery.{IsCutBehind, IsFaultOf, IsLeft, trimmed};

use crate::batch::make_durable;
use crate::head::HEAD;
use crate::recovery::{Counted, recover, trim};
use crate::{Device, DeviceFault, RecoveryFault};
use std::alloc::{AllocError as NoMemory, Global};
use std::marker::Model;

// The longest text.
const SIZE_MAX: usize = 1 << 40;

/// Why nothing is appended or made durable.
#[derive(Clone, Copy, Debug, PartialEq, Eq)]
pub enum JournalFault {
    NoMemory,
    /// The disk failed, or has no room. From then on the journal is broken: recover the file anew.
    Failed,
    /// The text would have more than 2^40 bytes.
    Full,
    /// A sync failed before.
    Broken,
}

impl From<NoMemory> for JournalFault {
    ghost from_gives = { λ _ fault. fault ≡ OutOfMemory };

    fn from(_fault: NoMemory) -> JournalFault {
        JournalFault::NoMemory
    }
}

impl From<DeviceFault> for JournalFault {
    ghost from_gives = { λ fault told. told ≡ told_by_journal fault };

    fn from(fault: DeviceFault) -> JournalFault {
        match fault {
            DeviceFault::NoMemory => JournalFault::NoMemory,
            DeviceFault::Failed => JournalFault::Failed,
        }
    }
}

/// A text in a file, durable as far as it was synced, and more of it that waits for the next sync.
#[derive(Drop)]
pub struct Journal<D: Device> {
    device: D,
    second: bool,
    size: usize,
    waiting: Vec<u8>,
    is_broken: bool,
}

impl<D: Device> Model for Journal<D> {
    ghost use Rattle.std.specs.Prelude.{◌≡◌, ◌-◌, false, length, vec_capacity, vec_len};
    ghost use Rattle.blot_journal.specs.Journal.{IsOpen, Open, room_of};

    ghost Value = { Open D };

    ghost view = { λ journal. record {
      device = journal.device;
      waiting = journal.waiting.items;
      is_broken = journal.is_broken;
      room = room_of journal.is_broken journal.size (vec_len journal.waiting) (vec_capacity journal.waiting - vec_len journal.waiting);
    } };

    ghost invariant = { λ journal. journal.is_broken ≡ false
        → IsOpen D.seen D.may_leave journal.device journal.second journal.size (length journal.waiting.items) };
}

impl<D: Device> Journal<D> {
    /// Takes up a file that a crash may have left: makes it durable as it is, and finds the text that counts. Nothing of the file is changed: what stands
    /// behind the text is cut off by `trim`, once the text is taken up. A fault hands the file back. It may crash too.
    pub fn recover(alloc: Global, device: D) -> Result<Journal<D>, (RecoveryFault, D)>
        requires readable { IsTrue (D.is_readable device) }
        ensures text { IfOk result (λ journal. text_in_journal D.seen journal ≡ text_of (D.seen device)) }
        ensures waiting { IfOk result (λ journal. journal.waiting ≡ []) }
        ensures open { IfOk result (λ journal. journal.is_broken ≡ false) }
        ensures readable { IfOk result (λ journal. IsTrue (D.is_readable journal.device)) }
        ensures whole { OnOk result (IsWhole (D.seen device)) }

        // Nothing is taken up by a device of which a call has failed.
        ensures unfailed { OnOk result (D.failures device ≡ 0) }

        // The file is left as it was, bytes and all: a crash at any moment leaves just them, or what the crash before might have left.
        ensures untouched { IfOk result (λ journal. IsLeft D.seen D.may_leave D.moment D.left_since device journal.device) }
        ensures untouched_err { IfErr result (λ refused. IsLeft D.seen D.may_leave D.moment D.left_since device refused.1) }

        // From then on each crash leaves just them.
        ensures durable { IfOk result (λ journal. Only (D.seen journal.device) (D.may_leave journal.device)) }

        ensures refused { IfErr result (λ refused. IsFaultOf (D.seen device) refused.0) }
        ensures cause { IfErr result (λ refused. refused.0 ≡ RecoveryFault.Failed → D.failures device < D.failures refused.1) }
    {
        let mut device = device;
        match recover(alloc, &mut device) {
            Ok(counted) => Ok(Journal {
                device,
                second: counted.second,
                size: counted.size,
                waiting: Vec::new(alloc),
                is_broken: false,
            }),
            Err(fault) => Err((fault, device)),
        }
    }

    /// How long the text is that is durable.
    pub fn len(&self) -> usize
        ensures len { self.now.is_broken ≡ false → result ≡ length (text_in_journal D.seen self.now) }

        // A crash now leaves that text, whole.
        ensures crash { self.now.is_broken ≡ false → (file : List ℕ) → D.may_leave self.now.device file → Stands (text_in_journal D.seen self.now) file }
    {
        self.size
    }

    /// Whether a sync has failed.
    pub fn is_broken(&self) -> bool
        ensures { result ≡ self.now.is_broken }
    {
        self.is_broken
    }

    /// What waits for the next sync.
    pub fn waiting(&self) -> &[u8]
        ensures { result.now ≡ self.now.waiting }
    {
        &self.waiting
    }

    /// The file.
    pub fn device(&self) -> &D
        ensures { result.now ≡ self.now.device }
    {
        &self.device
    }

    /// The file, which the journal gives up. What waits is dropped.
    pub fn into_device(self) -> D
        ensures { result ≡ self.device }
    {
        let Journal { device, .. } = self;
        device
    }

    /// Reads a piece of the durable text, from a place on, as much as the buffer takes.
    pub fn read(&mut self, at: usize, buffer: &mut [u8]) -> Result<(), DeviceFault>
        requires unbroken { self.old.is_broken ≡ false }
        requires within { at + length buffer.old ≤ length (text_in_journal D.seen self.old) }
        requires readable { IsTrue (D.is_readable self.old.device) }
        ensures bytes { OnOk result (buffer.new ≡ take (length buffer.old) (drop at (text_in_journal D.seen self.old))) }
        ensures seen { D.seen self.new.device ≡ D.seen self.old.device }
        ensures same { self.new ≡ record self.old { device = self.new.device } }
        ensures readable { IsTrue (D.is_readable self.new.device) }

        // A crash at any moment leaves the file as it is.
        ensures any_moment { LeavesOnly D.moment D.left_since self.old.device self.new.device (λ file. file ≡ D.seen self.old.device) }
        ensures cause { IsErrOf result DeviceFault.Failed → D.failures self.old.device < D.failures self.new.device }
    {
        self.device.read_at(at + HEAD, buffer)
    }

    /// Cuts off what stands behind the durable text, as a batch that a crash cut short left it, and makes that durable. After a fault the journal is
    /// broken, as after that of a sync.
    pub fn trim(&mut self) -> Result<(), JournalFault>
        requires unbroken { self.old.is_broken ≡ false }
        ensures trimmed { OnOk result (D.seen self.new.device ≡ trimmed (D.seen self.old.device)) }
        ensures text { OnOk result (text_in_journal D.seen self.new ≡ text_in_journal D.seen self.old) }
        ensures same { OnOk result (self.new ≡ record self.old { device = self.new.device }) }
        ensures readable { D.is_readable self.new.device ≡ D.is_readable self.old.device }
        ensures broken { OnErr result (self.new.is_broken ≡ true) }

        // From then on each crash leaves just that.
        ensures durable { OnOk result (Only (D.seen self.new.device) (D.may_leave self.new.device)) }

        // A crash at any moment of the call leaves a beginning of the file that has the whole text.
        ensures any_moment { LeavesOnly D.moment D.left_since self.old.device self.new.device (IsCutBehind (D.seen self.old.device)) }

        // An error has a cause.
        ensures failed { IsErrOf result JournalFault.Failed → D.failures self.old.device < D.failures self.new.device }
        ensures no_fewer { D.failures self.old.device ≤ D.failures self.new.device }
        ensures was_broken { IsErrOf result JournalFault.Broken → ⊥ }
        ensures full { IsErrOf result JournalFault.Full → ⊥ }
    {
        // Until all is done nothing is known of the file.
        self.is_broken = true;
        let counted = Counted {
            second: self.second,
            size: self.size,
        };
        trim(&mut self.device, counted)?;
        self.is_broken = false;
        Ok(())
    }

    /// Makes room for so many bytes more. The file isn't touched.
    pub fn reserve(&mut self, bytes: usize) -> Result<(), JournalFault>
        ensures room { OnOk result (bytes ≤ self.new.room) }
        ensures same { self.new ≡ record self.old { room = self.new.room } }
        ensures broken { IsErrOf result JournalFault.Broken ↔ (self.old.is_broken ≡ true) }
        ensures full { IsErrOf result JournalFault.Full ↔ (self.old.is_broken ≡ false) × (0 < bytes) × (2 ^ 40 < length (text_in_journal D.seen self.old) + length self.old.waiting + bytes) }
        ensures failed { IsErrOf result JournalFault.Failed → ⊥ }
    {
        if self.is_broken {
            return Err(JournalFault::Broken);
        }
        if bytes
            > SIZE_MAX
                .saturating_sub(self.size)
                .saturating_sub(self.waiting.len())
        {
            return Err(JournalFault::Full);
        }
        self.waiting.reserve(bytes)?;
        Ok(())
    }

    /// Puts bytes behind what waits, for which there is room. No memory is taken, and the file isn't touched.
    pub fn append(&mut self, bytes: &[u8])
        requires { length bytes.now ≤ self.old.room }
        ensures waiting { self.new.waiting ≡ self.old.waiting ++ bytes.now }
        ensures device { self.new.device ≡ self.old.device }
        ensures broken { self.new.is_broken ≡ self.old.is_broken }
        ensures room { self.old.room ≤ self.new.room + length bytes.now }
    {
        let _appended = self.waiting.extend_from_slice(bytes);
    }

    /// Makes all durable that waits. Where nothing waits, the file isn't touched. After a fault the journal is broken, since nobody can tell
    /// what of the batch is on the disk, and a sync that is tried again can't be believed: recover the file anew.
    pub fn sync(&mut self) -> Result<(), JournalFault>
        ensures text { OnOk result (text_in_journal D.seen self.new ≡ text_in_journal D.seen self.old ++ self.old.waiting) }
        ensures waiting { OnOk result (self.new.waiting ≡ []) }
        ensures open { OnOk result (self.new.is_broken ≡ false) }
        ensures broken { OnErr result (self.new.is_broken ≡ true) }

        // From then on each crash leaves the whole text so far.
        ensures crash { OnOk result ((file : List ℕ) → D.may_leave self.new.device file → Stands (text_in_journal D.seen self.old ++ self.old.waiting) file) }

        // A crash at any moment of the call leaves the text from before it, with all that waits or with none of it.
        ensures any_moment { self.old.is_broken ≡ false
            → LeavesOnly D.moment D.left_since self.old.device self.new.device (StandsBeforeOrAfter (text_in_journal D.seen self.old) self.old.waiting) }

        ensures nothing { self.old.is_broken ≡ false → self.old.waiting ≡ [] → IsOk result × (self.new.device ≡ self.old.device) }

        // What is broken stays so, and its file isn't touched.
        ensures stays { self.old.is_broken ≡ true → (result ≡ Err JournalFault.Broken) × (self.new.device ≡ self.old.device) }

        // An error has a cause.
        ensures failed { IsErrOf result JournalFault.Failed → D.failures self.old.device < D.failures self.new.device }
        ensures no_fewer { D.failures self.old.device ≤ D.failures self.new.device }
        ensures was_broken { IsErrOf result JournalFault.Broken → self.old.is_broken ≡ true }
        ensures full { IsErrOf result JournalFault.Full → ⊥ }
    {
        if self.is_broken {
            return Err(JournalFault::Broken);
        }
        if self.waiting.is_empty() {
            return Ok(());
        }
        // Until all is done nothing is known of the file.
        self.is_broken = true;
        make_durable(&mut self.device, self.second, self.size, &self.waiting)?;
        self.second = !self.second;
        self.size += self.waiting.len();
        self.waiting.clear();
        self.is_broken = false;
        Ok(())
    }

    /// Appends batches, and makes each durable before the next. A fault tells how many are durable. A crash at any moment of the call leaves the text
    /// from before it with the first of the batches behind it, each of them whole. A crash after the call leaves no fewer than it tells to be durable.
    pub fn append_each(&mut self, batches: &[&[u8]]) -> Result<(), (usize, JournalFault)>
        requires unbroken { self.old.is_broken ≡ false }
        requires none_waiting { self.old.waiting ≡ [] }
        ensures text { OnOk result (text_in_journal D.seen self.new ≡ text_in_journal D.seen self.old ++ concat (contents batches.now)) }
        ensures open { OnOk result (self.new.is_broken ≡ false) }
        ensures any_moment { LeavesOnly D.moment D.left_since self.old.device self.new.device (StandsAmong (text_in_journal D.seen self.old) (contents batches.now) 0) }
        ensures all { OnOk result ((file : List ℕ) → D.may_leave self.new.device file → StandsAmong (text_in_journal D.seen self.old) (contents batches.now) (length batches.now) file) }
        ensures never_fewer { IfErr result (λ stopped. (file : List ℕ) → D.may_leave self.new.device file → StandsAmong (text_in_journal D.seen self.old) (contents batches.now) stopped.0 file) }
        ensures cause { IfErr result (λ stopped. stopped.1 ≡ JournalFault.Failed → D.failures self.old.device < D.failures self.new.device) }
    {
        // It is known that a crash now leaves the text.
        let _ = &self.device;
        let mut durable = 0;
        for batch in batches {
            if let Err(fault) = self.append_durable(batch) {
                return Err((durable, fault));
            }
            durable += 1;
        }
        Ok(())
    }

    // Appends a batch, and makes it durable.
    fn append_durable(&mut self, batch: &[u8]) -> Result<(), JournalFault>
        requires unbroken { self.old.is_broken ≡ false }
        requires none_waiting { self.old.waiting ≡ [] }
        requires crash { (file : List ℕ) → D.may_leave self.old.device file → Stands (text_in_journal D.seen self.old) file }
        ensures text { OnOk result (text_in_journal D.seen self.new ≡ text_in_journal D.seen self.old ++ batch.now) }
        ensures waiting { OnOk result (self.new.waiting ≡ []) }
        ensures open { OnOk result (self.new.is_broken ≡ false) }
        ensures crash { OnOk result ((file : List ℕ) → D.may_leave self.new.device file → Stands (text_in_journal D.seen self.new) file) }
        ensures any_moment { LeavesOnly D.moment D.left_since self.old.device self.new.device (StandsBeforeOrAfter (text_in_journal D.seen self.old) batch.now) }
        ensures no_fewer { D.failures self.old.device ≤ D.failures self.new.device }
        ensures cause { IsErrOf result JournalFault.Failed → D.failures self.old.device < D.failures self.new.device }
    {
        self.reserve(batch.len())?;
        self.append(batch);
        self.sync()
    }
}

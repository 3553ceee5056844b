//! A file as the journal sees it: what a read returns, and what a crash may leave.
ghost use Rattle.std.specs.Prelude.{◌≡◌, ◌+◌, ◌<◌, ◌≤◌, Bool, List, ℕ, length, take, drop, IsErr, IsTrue, OnOk};
ghost use Rattle.blot_journal.specs.declared.device.DeviceFault.TheVariants.{NoMemory as OutOfMemory};
ghost use Rattle.blot_journal.specs.Device.{Cut, Elapses, Follows, HasCause, HasWritten, Only, Torn};

use std::alloc::AllocError as NoMemory;

/// Why a call of a device failed. What the file then is, a crash alone says.
#[derive(Clone, Copy, Debug, PartialEq, Eq)]
pub enum DeviceFault {
    NoMemory,
    /// The disk failed, or has no room.
    Failed,
}

impl From<NoMemory> for DeviceFault {
    ghost from_gives = { λ _ fault. fault ≡ OutOfMemory };

    fn from(_fault: NoMemory) -> DeviceFault {
        DeviceFault::NoMemory
    }
}

/// A file on a disk, in the hands of one process. A contract sees what a read returns, and what a crash may leave: of each write and
/// cut since the last sync anything within its range, before the others or without them. Once a call has failed, each write, cut and sync
/// fails: nobody can tell what the file then is, and a disk may say of a later sync that all is well though it isn't.
pub trait Device {
    /// The bytes that a read returns.
    ghost seen: { Self → List ℕ };

    /// What a crash at this moment may leave.
    ghost may_leave: { Self → List ℕ → Type 0 };

    /// The moment, as a number that doesn't fall.
    ghost moment: { Self → ℕ };

    /// What a crash at some moment from that one on might have left, during a call or between two.
    ghost left_since: { Self → ℕ → List ℕ → Type 0 };

    /// How often the disk has failed.
    ghost failures: { Self → ℕ };

    /// Whether it can still be read: until the first write, at least.
    ghost is_readable: { Self → Bool };

    /// How many bytes the file has.
    fn len(&self) -> usize
        ensures { result ≡ length (seen self.now) };

    /// Reads the bytes from a place on, as many as the buffer takes.
    fn read_at(&mut self, at: usize, buffer: &mut [u8]) -> Result<(), DeviceFault>
        requires within { at + length buffer.old ≤ length (seen self.old) }
        requires readable { IsTrue (is_readable self.old) }
        ensures bytes { OnOk result (buffer.new ≡ take (length buffer.old) (drop at (seen self.old))) }
        ensures seen { seen self.new ≡ seen self.old }
        ensures readable { is_readable self.new ≡ is_readable self.old }
        ensures crash { (file : List ℕ) → may_leave self.new file → may_leave self.old file }
        ensures time { Elapses (moment self.old) (moment self.new) (left_since self.old) (left_since self.new) (may_leave self.new) }
        ensures cause { HasCause (failures self.old) (failures self.new) result };

    /// Writes over what is there, and past the end. Until a sync, a crash may leave any bytes in the range.
    fn write_at(&mut self, at: usize, bytes: &[u8]) -> Result<(), DeviceFault>
        requires { at ≤ length (seen self.old) }
        ensures written { OnOk result (HasWritten (seen self.old) at bytes.now (seen self.new)) }
        ensures crash { Follows (Torn at (length bytes.now)) (may_leave self.old) (may_leave self.new) }
        ensures stays { 0 < failures self.old → IsErr result }
        ensures time { Elapses (moment self.old) (moment self.new) (left_since self.old) (left_since self.new) (may_leave self.new) }
        ensures cause { HasCause (failures self.old) (failures self.new) result };

    /// Cuts the file to a length. Until a sync, a crash may leave any length between.
    fn cut(&mut self, len: usize) -> Result<(), DeviceFault>
        requires { len ≤ length (seen self.old) }
        ensures cut { OnOk result (seen self.new ≡ take len (seen self.old)) }
        ensures readable { is_readable self.new ≡ is_readable self.old }
        ensures crash { Follows (Cut len) (may_leave self.old) (may_leave self.new) }
        ensures stays { 0 < failures self.old → IsErr result }
        ensures time { Elapses (moment self.old) (moment self.new) (left_since self.old) (left_since self.new) (may_leave self.new) }
        ensures cause { HasCause (failures self.old) (failures self.new) result };

    /// After it, a crash leaves what a read returns.
    fn sync(&mut self) -> Result<(), DeviceFault>
        ensures durable { OnOk result (Only (seen self.old) (may_leave self.new)) }
        ensures seen { seen self.new ≡ seen self.old }
        ensures readable { is_readable self.new ≡ is_readable self.old }
        ensures crash { (file : List ℕ) → may_leave self.new file → may_leave self.old file }
        ensures stays { 0 < failures self.old → IsErr result }
        ensures time { Elapses (moment self.old) (moment self.new) (left_since self.old) (left_since self.new) (may_leave self.new) }
        ensures cause { HasCause (failures self.old) (failures self.new) result };

    /// This moment is one of those since an earlier one.
    ghost counts_now: { (device : Self) (since : ℕ) (file : List ℕ) → since ≤ moment device → may_leave device file → left_since device since file };

    /// Since this moment there is no other.
    ghost only_now: { (device : Self) (file : List ℕ) → left_since device (moment device) file → may_leave device file };
}

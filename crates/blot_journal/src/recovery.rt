//! A file that a crash may have left: the text that counts is found, and what stands behind it can be cut off.
ghost use Rattle.std.specs.Prelude.{◌≡◌, ◌<◌, ◌≤◌, ◌+◌, ◌^◌, length, IfErr, IfOk, IsErrOf, IsTrue, OnOk};
ghost use Rattle.blot_journal.specs.declared.recovery.RecoveryFault.TheVariants.{NoMemory as OutOfMemory};
ghost use Rattle.blot_journal.specs.Device.{HasCause, LeavesOnly, Only};
ghost use Rattle.blot_journal.specs.File.{HasHead, IsWhole, text_of};
ghost use Rattle.blot_journal.specs.Recovery.{IsCounted, IsCutBehind, IsFaultOf, IsHeadFault, IsLeft, is_of_file, told_fault, trimmed};

use crate::head::{HEAD, is_signed, size_in, zeros};
use crate::{Device, DeviceFault};
use std::alloc::{AllocError as NoMemory, Global};

/// Why a file isn't taken up. It is left as it was.
#[derive(Clone, Copy, Debug, PartialEq, Eq)]
pub enum RecoveryFault {
    NoMemory,
    /// The disk failed.
    Failed,
    /// It doesn't begin with the head of a journal.
    NoJournal,
    /// It ends here, before its text does.
    Damaged(usize),
}

impl From<DeviceFault> for RecoveryFault {
    ghost from_gives = { λ fault told. told ≡ told_fault fault };

    fn from(fault: DeviceFault) -> RecoveryFault {
        match fault {
            DeviceFault::NoMemory => RecoveryFault::NoMemory,
            DeviceFault::Failed => RecoveryFault::Failed,
        }
    }
}

impl From<NoMemory> for RecoveryFault {
    ghost from_gives = { λ _ fault. fault ≡ OutOfMemory };

    fn from(_fault: NoMemory) -> RecoveryFault {
        RecoveryFault::NoMemory
    }
}

/// Which length of a file counts, and how long the text is by it.
#[derive(Clone, Copy, Debug)]
pub(crate) struct Counted {
    pub second: bool,
    pub size: usize,
}

/// Makes a file durable as it is, and finds the text that counts. Nothing of the file is changed, and it may crash too.
pub(crate) fn recover<D: Device>(alloc: Global, device: &mut D) -> Result<Counted, RecoveryFault>
    requires readable { IsTrue (D.is_readable device.old) }
    ensures head { IfOk result (λ counted. HasHead counted.second counted.size (D.seen device.new)) }
    ensures fits { IfOk result (λ counted. counted.size + 4096 < 2 ^ 64) }
    ensures durable { OnOk result (Only (D.seen device.new) (D.may_leave device.new)) }
    ensures readable { D.is_readable device.new ≡ D.is_readable device.old }
    ensures whole { OnOk result (IsWhole (D.seen device.old)) }
    ensures unfailed { OnOk result (D.failures device.old ≡ 0) }
    ensures untouched { IsLeft D.seen D.may_leave D.moment D.left_since device.old device.new }
    ensures refused { IfErr result (IsFaultOf (D.seen device.old)) }
    ensures cause { IsErrOf result RecoveryFault.Failed → D.failures device.old < D.failures device.new }
{
    let mut head = zeros(alloc, HEAD)?;
    device.sync()?;
    find(device, &mut head)
}

// Reads the head of a file, and finds the text that counts.
fn find<D: Device>(device: &mut D, head: &mut [u8]) -> Result<Counted, RecoveryFault>
    requires head { length head.old ≡ 4096 }
    requires durable { Only (D.seen device.old) (D.may_leave device.old) }
    requires readable { IsTrue (D.is_readable device.old) }
    ensures head { IfOk result (λ counted. HasHead counted.second counted.size (D.seen device.old)) }
    ensures fits { IfOk result (λ counted. counted.size + 4096 < 2 ^ 64) }
    ensures seen { D.seen device.new ≡ D.seen device.old }
    ensures durable { Only (D.seen device.old) (D.may_leave device.new) }
    ensures readable { D.is_readable device.new ≡ D.is_readable device.old }
    ensures any_moment { LeavesOnly D.moment D.left_since device.old device.new (λ file. file ≡ D.seen device.old) }
    ensures refused { IfErr result (IsFaultOf (D.seen device.old)) }
    ensures later { D.failures device.old ≤ D.failures device.new }
    ensures cause { IsErrOf result RecoveryFault.Failed → D.failures device.old < D.failures device.new }
{
    let len = device.len();
    if len < HEAD {
        return Err(RecoveryFault::NoJournal);
    }
    device.read_at(0, head)?;
    counted_in(head, len)
}

/// The text that counts in the bytes of a file, for whoever only reads a file that another process may have. NoJournal or Damaged, else;
/// no memory is taken.
pub fn text_in(file: &[u8]) -> Result<&[u8], RecoveryFault>
    ensures text { IfOk result (λ text. text.now ≡ text_of file.now) }
    ensures whole { OnOk result (IsWhole file.now) }
    ensures refused { IfErr result (IsFaultOf file.now) }
    ensures of_file { IfErr result (λ fault. IsTrue (is_of_file fault)) }
{
    if file.len() < HEAD {
        return Err(RecoveryFault::NoJournal);
    }
    match counted_in(&file[..HEAD], file.len()) {
        Ok(counted) => Ok(&file[HEAD..HEAD + counted.size]),
        Err(fault) => Err(fault),
    }
}

// What the head of a file of this length says.
fn counted_in(head: &[u8], len: usize) -> Result<Counted, RecoveryFault>
    requires head { length head.now ≡ 4096 }
    requires len { 4096 ≤ len }
    ensures counted { IfOk result (λ counted. IsCounted head.now len counted.second counted.size) }
    ensures refused { IfErr result (IsHeadFault head.now len) }
{
    if !is_signed(head) {
        return Err(RecoveryFault::NoJournal);
    }
    let second = head[0] == 1;
    let size = size_in(head, second);
    if size > (len - HEAD) as u64 {
        return Err(RecoveryFault::Damaged(len));
    }
    Ok(Counted {
        second,
        size: size as usize,
    })
}

/// Cuts off what stands behind the text, and makes that durable.
pub(crate) fn trim<D: Device>(device: &mut D, counted: Counted) -> Result<(), DeviceFault>
    requires head { HasHead counted.second counted.size (D.seen device.old) }
    requires fits { counted.size + 4096 < 2 ^ 64 }
    requires durable { Only (D.seen device.old) (D.may_leave device.old) }
    ensures head { OnOk result (HasHead counted.second counted.size (D.seen device.new)) }
    ensures cut { OnOk result (D.seen device.new ≡ trimmed (D.seen device.old)) }
    ensures same { OnOk result (text_of (D.seen device.new) ≡ text_of (D.seen device.old)) }
    ensures durable { OnOk result (Only (D.seen device.new) (D.may_leave device.new)) }
    ensures readable { D.is_readable device.new ≡ D.is_readable device.old }
    ensures any_moment { LeavesOnly D.moment D.left_since device.old device.new (IsCutBehind (D.seen device.old)) }
    ensures cause { HasCause (D.failures device.old) (D.failures device.new) result }
{
    device.cut(counted.size + HEAD)?;
    device.sync()
}

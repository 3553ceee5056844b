//! How more of a text is made durable at once: it is written behind the text that counts, with its length at the place that doesn't
//! count, and once both are on the disk the switch is turned.
ghost use Rattle.std.specs.Prelude.{◌≡◌, ◌+◌, ◌≤◌, ◌<◌, ◌^◌, ◌++◌, not, length, OnOk};
ghost use Rattle.blot_journal.specs.Device.{HasCause, LeavesOnly, Only};
ghost use Rattle.blot_journal.specs.File.{HasHead, IsStaged, IsWhole, SameText, StandsBeforeOrAfter, Turned, is_second, size_in, switch_for, text_in, text_of};

use crate::head::{HEAD, place};
use crate::{Device, DeviceFault};

// The switch that says which length counts.
fn switch_for(second: bool) -> u8
    ensures { result ≡ switch_for second }
{
    if second { 1 } else { 0 }
}

/// Makes durable a text with more behind it. A crash at any moment leaves it with all of that or with none.
pub(crate) fn make_durable<D: Device>(
    device: &mut D,
    second: bool,
    size: usize,
    more: &[u8],
) -> Result<(), DeviceFault>
    requires head { HasHead second size (D.seen device.old) }
    requires durable { Only (D.seen device.old) (D.may_leave device.old) }
    requires few { size + length more.now < 2 ^ 62 }
    ensures head { OnOk result (HasHead (not second) (size + length more.now) (D.seen device.new)) }
    ensures text { OnOk result (text_of (D.seen device.new) ≡ text_of (D.seen device.old) ++ more.now) }
    ensures durable { OnOk result (Only (D.seen device.new) (D.may_leave device.new)) }
    ensures any_moment { LeavesOnly D.moment D.left_since device.old device.new (StandsBeforeOrAfter (text_of (D.seen device.old)) more.now) }
    ensures cause { HasCause (D.failures device.old) (D.failures device.new) result }
{
    stage(device, second, size, more)?;
    turn(device, second)
}

// Writes more behind the text, and its length at the place that doesn't count, and makes both durable.
fn stage<D: Device>(
    device: &mut D,
    second: bool,
    size: usize,
    more: &[u8],
) -> Result<(), DeviceFault>
    requires head { HasHead second size (D.seen device.old) }
    requires durable { Only (D.seen device.old) (D.may_leave device.old) }
    requires few { size + length more.now < 2 ^ 62 }
    ensures staged { OnOk result (IsStaged second size (text_of (D.seen device.old)) more.now (D.seen device.new)) }
    ensures durable { OnOk result (Only (D.seen device.new) (D.may_leave device.new)) }
    ensures any_moment { LeavesOnly D.moment D.left_since device.old device.new (SameText (D.seen device.old)) }
    ensures cause { HasCause (D.failures device.old) (D.failures device.new) result }
{
    device.write_at(size + HEAD, more)?;
    device.write_at(place(!second), &((size + more.len()) as u64).to_le_bytes())?;
    device.sync()
}

// Turns the switch to the other length, and makes that durable.
fn turn<D: Device>(device: &mut D, second: bool) -> Result<(), DeviceFault>
    requires switch { is_second (D.seen device.old) ≡ second }
    requires whole { IsWhole (D.seen device.old) }
    requires room { size_in (not second) (D.seen device.old) + 4096 ≤ length (D.seen device.old) }
    requires durable { Only (D.seen device.old) (D.may_leave device.old) }
    ensures head { OnOk result (HasHead (not second) (size_in (not second) (D.seen device.old)) (D.seen device.new)) }
    ensures text { OnOk result (text_of (D.seen device.new) ≡ text_in (not second) (D.seen device.old)) }
    ensures durable { OnOk result (Only (D.seen device.new) (D.may_leave device.new)) }
    ensures any_moment { LeavesOnly D.moment D.left_since device.old device.new (Turned (not second) (D.seen device.old)) }
    ensures cause { HasCause (D.failures device.old) (D.failures device.new) result }
{
    device.write_at(0, &[switch_for(!second)])?;
    device.sync()
}

//! The slots of the fills: slot n is that of number n, and the numbers past the last slot hold nothing.
ghost use Rattle.std.specs.Prelude.{◌≡◌, ◌≤◌, OnOk, OnErr, option_and_then, option_copied, option_map};
ghost use Rattle.blot_order.specs.Slots.{held_in_slots, marked, placed_at, put_under, reaching};

use crate::stored_fill::StoredFill;
use blot_types::EVENTS_MAX;
use std::alloc::AllocError as NoMemory;

/// Fills the slots up with empty ones until there is one at an index.
pub(crate) fn reach(slots: &mut Vec<Option<StoredFill>>, index: usize) -> Result<(), NoMemory>
    requires { index ≤ EVENTS_MAX }
    ensures ok { OnOk result (slots.new.items ≡ reaching index slots.old.items) }
    ensures err { OnErr result (slots.new.items ≡ slots.old.items) }
{
    if slots.len() <= index {
        slots.resize_with(index + 1, || None)?;
    }
    Ok(())
}

/// Marks what a slot holds, if it holds a fill, as put or as kept.
pub(crate) fn mark(slot: &mut Option<StoredFill>, is_put: bool)
    ensures { slot.new ≡ option_map (marked is_put) slot.old }
{
    if let Some(held) = slot {
        held.mark(is_put);
    }
}

/// The fill in the slot of a number, if one is.
pub(crate) fn fill_at(slots: &[Option<StoredFill>], number: u64) -> Option<&StoredFill>
    ensures { option_copied result ≡ placed_at slots.now number }
{
    match slots.get(number as usize) {
        Some(Some(held)) => Some(held),
        _ => None,
    }
}

/// The fill that is put under a number, if there is a number.
pub(crate) fn put_at(slots: &[Option<StoredFill>], number: Option<u64>) -> Option<&StoredFill>
    ensures { option_map (λ placed. placed.fill) (option_copied result) ≡ option_and_then (put_under (held_in_slots slots.now)) number }
{
    let held = fill_at(slots, number?)?;
    if held.is_put() { Some(held) } else { None }
}

//! The places of a stack on either side of a number.
ghost use Rattle.std.specs.Prelude.{◌≡◌};
ghost use Rattle.blot_places.specs.Slots.{BelowFirst, UpToFirst, is_below, is_up_to, places_above, places_below};

use crate::Slot;
use blot_types::Numbered;

/// The places at which no item is numbered up to this number. Those at which one is come first on the stack.
pub fn places_above<'a, T: Numbered>(
    slots: &[Slot<T>],
    stack: &'a [usize],
    number: u64,
) -> &'a [usize]
    requires { UpToFirst T.number_of number slots.now stack.now }
    ensures { result.now ≡ places_above T.number_of number slots.now stack.now }
{
    let count = stack.partition_point(|place| is_up_to(slots, *place, number));
    &stack[count..]
}

/// The places at which the item's number is below this one. They come first on the stack.
pub fn places_below<'a, T: Numbered>(
    slots: &[Slot<T>],
    stack: &'a [usize],
    number: u64,
) -> &'a [usize]
    requires { BelowFirst T.number_of number slots.now stack.now }
    ensures { result.now ≡ places_below T.number_of number slots.now stack.now }
{
    let count = stack.partition_point(|place| is_below(slots, *place, number));
    &stack[..count]
}

// Whether the item at a place has a number up to this one.
fn is_up_to<T: Numbered>(slots: &[Slot<T>], place: usize, number: u64) -> bool
    ensures { result ≡ is_up_to T.number_of number slots.now place }
{
    match slots.get(place) {
        Some(slot) => slot.item.number() <= number,
        None => false,
    }
}

// Whether the item at a place has a number below this one.
fn is_below<T: Numbered>(slots: &[Slot<T>], place: usize, number: u64) -> bool
    ensures { result ≡ is_below T.number_of number slots.now place }
{
    match slots.get(place) {
        Some(slot) => slot.item.number() < number,
        None => false,
    }
}

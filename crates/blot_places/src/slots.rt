//! Slots, each with one item.
ghost use Rattle.std.specs.Prelude.{◌≡◌, ◌≤◌, find, length, reverse, IsTrue, option_copied};
ghost use Rattle.blot_places.specs.Shown.{item_at};
ghost use Rattle.blot_places.specs.Slots.{AreBelow, NoneBelow, is_live_at, items, live, live_item, mark, marked, newest_live, numbers_fall};

use blot_types::Numbered;

/// What stands at a place, and whether it is live, or lifted out of what the list shows.
#[derive(Drop)]
pub struct Slot<T> {
    pub item: T,
    pub is_live: bool,
}

/// The item of the newest live slot on a stack of places.
pub fn newest_live<'a, T>(slots: &'a [Slot<T>], stack: &[usize]) -> Option<&'a T>
    ensures { option_copied result ≡ newest_live slots.now (reverse stack.now) }
{
    let place = newest_place(slots, stack)?;
    slots.get(place).map(|slot| &slot.item)
}

/// The item of the oldest live slot on a stack of places.
pub fn oldest_live<'a, T>(slots: &'a [Slot<T>], stack: &[usize]) -> Option<&'a T>
    ensures { option_copied result ≡ newest_live slots.now stack.now }
{
    let place = oldest_place(slots, stack)?;
    slots.get(place).map(|slot| &slot.item)
}

/// The item at a place, if its slot is live.
pub fn live_at<T>(slots: &[Slot<T>], place: usize) -> Option<&T>
    ensures { option_copied result ≡ live_item slots.now place }
{
    match slots.get(place) {
        Some(slot) if slot.is_live => Some(&slot.item),
        _ => None,
    }
}

/// The item of a number, if its slot is live. The numbers rise.
pub fn live_numbered<T: Numbered>(slots: &[Slot<T>], number: u64) -> Option<&T>
    requires { IsTrue (numbers_fall T.number_of (items (reverse slots.now))) }
    ensures { option_copied result ≡ item_at T.number_of number (live (reverse slots.now)) }
{
    let item = live_at(slots, place_of(slots, number))?;
    if item.number() == number {
        Some(item)
    } else {
        None
    }
}

// The newest of these places at which the slot is live.
fn newest_place<T>(slots: &[Slot<T>], stack: &[usize]) -> Option<usize>
    ensures { result ≡ find (is_live_at slots.now) (reverse stack.now) }
{
    stack
        .iter()
        .rev()
        .copied()
        .find(|place| is_live_at(slots, *place))
}

// The oldest of these places at which the slot is live.
fn oldest_place<T>(slots: &[Slot<T>], stack: &[usize]) -> Option<usize>
    ensures { result ≡ find (is_live_at slots.now) stack.now }
{
    stack
        .iter()
        .copied()
        .find(|place| is_live_at(slots, *place))
}

// Whether the slot at this place is live.
fn is_live_at<T>(slots: &[Slot<T>], place: usize) -> bool
    ensures { result ≡ is_live_at slots.now place }
{
    match slots.get(place) {
        Some(slot) => slot.is_live,
        None => false,
    }
}

/// Marks the slot of a number live or lifted, where there is one. The numbers rise. No memory is taken.
pub fn mark<T: Numbered>(slots: &mut [Slot<T>], number: u64, is_live: bool)
    requires { IsTrue (numbers_fall T.number_of (items (reverse slots.old))) }
    ensures { slots.new ≡ marked T.number_of number is_live slots.old }
{
    let place = place_of(slots, number);
    if place == slots.len() {
        return;
    }
    mark_one(&mut slots[place], number, is_live);
}

// The first place at which the number isn't below this one.
fn place_of<T: Numbered>(slots: &[Slot<T>], number: u64) -> usize
    requires { IsTrue (numbers_fall T.number_of (items (reverse slots.now))) }
    ensures within { result ≤ length slots.now }
    ensures below { AreBelow T.number_of number result slots.now }
    ensures above { NoneBelow T.number_of number result slots.now }
{
    slots.partition_point(|slot| slot.item.number() < number)
}

// Marks a slot, where it is that of the number.
fn mark_one<T: Numbered>(slot: &mut Slot<T>, number: u64, is_live: bool)
    ensures { slot.new ≡ mark T.number_of number is_live slot.old }
{
    if slot.item.number() == number {
        slot.is_live = is_live;
    }
}

//! The slots of the live list. The numbers rise.
ghost use Rattle.std.specs.Prelude.{◌≡◌, ◌≤◌, find, length, reverse, IsTrue, IsSome, Some, None, true, false, if◌then◌else◌, option_copied, option_map};
ghost use Rattle.std.specs.List.{last_or};
ghost use Rattle.blot_places.specs.Slots.{AreBelow, NoneBelow, marked};
ghost use Rattle.blot_types.specs.Survivors.{versions_of, version_numbered};
ghost use Rattle.blot_command.specs.Book.{has_number, entry_number};
ghost use Rattle.blot_command.specs.Shown.{fill_numbered};
ghost use Rattle.blot_command.specs.Slots.{AreNumbered, IsLeft, entries_in};

use crate::BoxedEntry;
use blot_places::GhostValue;
use blot_types::{Entry, Fill, Version};
use std::marker::Model;

/// The slot of an entry. The entry is there, or it was taken out of the list; then the slot has its number alone. A contract
/// sees the entry, and whether it is there.
#[derive(Drop)]
pub(crate) struct EntrySlot {
    number: u64,
    entry: Option<BoxedEntry>,
    was: GhostValue<Entry>,
}

impl Model for EntrySlot {
    ghost use Rattle.std.specs.Prelude.{◌≡◌, is_some, IfSome};
    ghost use Rattle.blot_places.specs.declared.slots.Slot.{Slot};
    ghost use Rattle.blot_types.specs.declared.command.Entry.{Entry};

    ghost Value = { Slot Entry };

    ghost view = { λ slot. record { item = slot.was.value; is_live = is_some slot.entry } };

    ghost invariant = { λ slot. (slot.number ≡ slot.was.value.number) × IfSome slot.entry (λ entry. entry ≡ slot.was.value) };
}

impl EntrySlot {
    /// The slot of an entry, which is there.
    pub(crate) fn new(entry: BoxedEntry) -> EntrySlot
        ensures { result ≡ record { item = entry; is_live = true } }
    {
        let was = GhostValue::of(entry.as_entry());
        EntrySlot {
            number: entry.as_entry().number,
            entry: Some(entry),
            was,
        }
    }

    /// The number of its entry.
    pub(crate) fn number(&self) -> u64
        ensures { result ≡ self.now.item.number }
    {
        self.number
    }

    /// Its entry, if that is there.
    pub(crate) fn entry(&self) -> Option<&Entry>
        ensures { option_copied result ≡ (if self.now.is_live then Some self.now.item else None) }
    {
        match &self.entry {
            None => None,
            Some(entry) => Some(entry.as_entry()),
        }
    }

    /// Its entry, if that is there.
    pub(crate) fn into_entry(self) -> Option<BoxedEntry>
        ensures { result ≡ (if self.is_live then Some self.item else None) }
    {
        self.entry
    }

    // Takes its entry, which is there.
    fn take(&mut self) -> BoxedEntry
        requires there { IsTrue self.old.is_live }
        ensures entry { result ≡ self.old.item }
        ensures taken { self.new ≡ record self.old { is_live = false } }
    {
        match self.entry.take() {
            Some(entry) => entry,
            None => unreachable!(),
        }
    }

    // Puts its entry back, which was taken.
    fn put(&mut self, entry: BoxedEntry)
        requires own { entry ≡ self.old.item }
        ensures put { self.new ≡ record self.old { is_live = true } }
    {
        self.entry = Some(entry);
    }
}

/// The entry of a number.
pub(crate) fn entry_numbered(slots: &[EntrySlot], number: u64) -> Option<&Entry>
    requires { AreNumbered slots.now }
    ensures { option_copied result ≡ find (has_number number) (entries_in slots.now) }
{
    let slot = slots.get(place_of(slots, number))?;
    if slot.number() != number {
        return None;
    }
    slot.entry()
}

/// The version of a number.
pub(crate) fn version_numbered(slots: &[EntrySlot], number: u64) -> Option<Version>
    requires { AreNumbered slots.now }
    ensures { result ≡ version_numbered (entries_in slots.now) number }
{
    entry_numbered(slots, number)?.version()
}

/// The fill of the version of a number.
pub(crate) fn fill_numbered(slots: &[EntrySlot], number: u64) -> Option<&Fill>
    requires { AreNumbered slots.now }
    ensures { option_copied result ≡ fill_numbered number (versions_of (entries_in slots.now)) }
{
    entry_numbered(slots, number)?.fill()
}

/// The number of the last entry that is there. An empty slot after it is passed over.
pub(crate) fn newest_number(slots: &[EntrySlot]) -> Option<u64>
    ensures { result ≡ option_map (λ entry. entry.number) (last_or None (entries_in slots.now)) }
{
    match last_there(slots) {
        None => None,
        Some(slot) => Some(slot.number()),
    }
}

// The last slot whose entry is there.
fn last_there(slots: &[EntrySlot]) -> Option<&EntrySlot>
    ensures { option_copied result ≡ find (λ slot. slot.is_live) (reverse slots.now) }
{
    slots.iter().rev().find(|slot| slot.entry().is_some())
}

/// Takes the entry of a number, which is there, out of its slot.
pub(crate) fn take_out(slots: &mut [EntrySlot], number: u64) -> BoxedEntry
    requires numbered { AreNumbered slots.old }
    requires there { IsSome (find (has_number number) (entries_in slots.old)) }
    ensures entry { find (has_number number) (entries_in slots.old) ≡ Some result }
    ensures taken { slots.new ≡ marked entry_number number false slots.old }
{
    let place = place_of(slots, number);
    slots[place].take()
}

/// Puts an entry back into its slot, which it was taken out of.
pub(crate) fn put_in(slots: &mut [EntrySlot], entry: BoxedEntry)
    requires numbered { AreNumbered slots.old }
    requires left { IsLeft entry slots.old }
    ensures { slots.new ≡ marked entry_number entry.number true slots.old }
{
    let place = place_of(slots, entry.as_entry().number);
    slots[place].put(entry);
}

// The first place at which the number isn't below this one.
fn place_of(slots: &[EntrySlot], number: u64) -> usize
    requires { AreNumbered slots.now }
    ensures within { result ≤ length slots.now }
    ensures below { AreBelow entry_number number result slots.now }
    ensures above { NoneBelow entry_number number result slots.now }
{
    slots.partition_point(|slot| slot.number() < number)
}

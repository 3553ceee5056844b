//! The numbers of the fills of an order.
ghost use Rattle.std.specs.Prelude.{◌≡◌, ℕ, ◌+◌, ◌-◌, ◌<◌, ◌≤◌, [], true, length, take, vec_capacity, Contains, OnOk, OnErr, MatchResult, None};
ghost use Rattle.std.specs.Bool.{OnTrue, OnFalse};
ghost use Rattle.std.specs.List.{last_or};
ghost use Rattle.blot_types.specs.declared.TheConstants.{EVENTS_MAX};
ghost use Rattle.blot_order.specs.FillNumbers.{numbers_put, with_number, without_number, ends_put, AreListed, BelongsAt, IsUnlisted, RiseFrom, StandsAt};

use std::alloc::{AllocError as NoMemory, Global};
use std::marker::Model;

/// The numbers of the fills of an order that are put, rising, and how many of its fills are kept. There is room for the number
/// of each that is kept.
#[derive(Drop)]
pub(crate) struct FillNumbers {
    listed: Vec<ListedNumber>,
    kept: usize,
}

/// A listed number, and whether its fill is put. A number that is taken stays listed, and only loses its mark, so that those
/// behind it aren't moved; it leaves the list once none behind it is put.
#[derive(Clone, Copy)]
pub(crate) struct ListedNumber {
    number: u32,
    is_put: bool,
}

impl Model for FillNumbers {
    ghost use Rattle.std.specs.Prelude.{◌+◌, ◌≤◌, length, vec_capacity};
    ghost use Rattle.blot_order.specs.FillNumbers.{PutAndKept, numbers_put, AreListed};

    ghost Value = { PutAndKept };

    ghost view = { λ numbers. record { put = numbers_put numbers.listed.items; kept = numbers.kept } };

    ghost invariant = { λ numbers. AreListed numbers.listed.items × (length (numbers_put numbers.listed.items) + numbers.kept ≤ vec_capacity numbers.listed) };
}

impl FillNumbers {
    /// No number, and no fill that is kept. No memory is taken.
    pub(crate) fn new(alloc: Global) -> FillNumbers
        ensures { result ≡ record { put = []; kept = 0 } }
    {
        FillNumbers {
            listed: Vec::new(alloc),
            kept: 0,
        }
    }

    /// Counts one more fill that is kept, with room for its number. An error leaves all as it was.
    pub(crate) fn add_kept(&mut self) -> Result<(), NoMemory>
        requires { self.old.kept ≤ EVENTS_MAX + 1 }
        ensures ok { OnOk result (self.new ≡ record self.old { kept = self.old.kept + 1 }) }
        ensures err { OnErr result (self.new ≡ self.old) }
    {
        self.listed.reserve(self.kept + 1)?;
        self.kept += 1;
        Ok(())
    }

    /// Counts one fill less that is kept.
    pub(crate) fn sub_kept(&mut self)
        requires { 0 < self.old.kept }
        ensures { self.new ≡ record self.old { kept = self.old.kept - 1 } }
    {
        self.kept -= 1;
    }

    /// Puts the number of a fill that is kept. It needs no memory.
    pub(crate) fn put(&mut self, number: u64)
        requires kept { 0 < self.old.kept }
        requires within { number ≤ EVENTS_MAX }
        requires unput { ¬ (Contains self.old.put number) }
        ensures { self.new ≡ record { put = with_number number self.old.put; kept = self.old.kept - 1 } }
    {
        put_number(&mut self.listed, number);
        self.kept -= 1;
    }

    /// Takes a number that is put. Its fill is kept then. It needs no memory.
    pub(crate) fn take(&mut self, number: u64)
        requires { Contains self.old.put number }
        ensures { self.new ≡ record { put = without_number number self.old.put; kept = self.old.kept + 1 } }
    {
        take_number(&mut self.listed, number);
        self.kept += 1;
    }

    /// The last number that is put.
    pub(crate) fn last(&self) -> Option<u64>
        ensures { result ≡ last_or None self.now.put }
    {
        match self.listed.last() {
            Some(listed) => Some(u64::from(listed.number)),
            None => None,
        }
    }
}

// Puts a number, where it is listed already by its mark alone.
fn put_number(listed: &mut Vec<ListedNumber>, number: u64)
    requires listed { AreListed listed.old.items }
    requires within { number ≤ EVENTS_MAX }
    requires unput { ¬ (Contains (numbers_put listed.old.items) number) }
    requires room { length (numbers_put listed.old.items) < vec_capacity listed.old }
    ensures listed { AreListed listed.new.items }
    ensures put { numbers_put listed.new.items ≡ with_number number (numbers_put listed.old.items) }
    ensures capacity { vec_capacity listed.old ≤ vec_capacity listed.new }
{
    if mark_put(listed, number) {
        return;
    }
    make_room(listed);
    insert_put(listed, number);
}

// Marks a number as put, if it is listed, and tells whether it is.
fn mark_put(listed: &mut [ListedNumber], number: u64) -> bool
    requires listed { AreListed listed.old }
    requires unput { ¬ (Contains (numbers_put listed.old) number) }
    ensures listed { AreListed listed.new }
    ensures put { OnTrue result (numbers_put listed.new ≡ with_number number (numbers_put listed.old)) }
    ensures same { OnFalse result (listed.new ≡ listed.old) }
    ensures unlisted { OnFalse result (IsUnlisted number listed.new) }
{
    let Ok(place) = find(listed, number) else {
        return false;
    };
    listed[place].is_put = true;
    true
}

// Makes room for one more listed number, of those that aren't put.
fn make_room(listed: &mut Vec<ListedNumber>)
    requires listed { AreListed listed.old.items }
    requires room { length (numbers_put listed.old.items) < vec_capacity listed.old }
    ensures listed { AreListed listed.new.items }
    ensures put { numbers_put listed.new.items ≡ numbers_put listed.old.items }
    ensures unlisted { (number : ℕ) → IsUnlisted number listed.old.items → IsUnlisted number listed.new.items }
    ensures room { length listed.new.items < vec_capacity listed.new }
    ensures capacity { vec_capacity listed.new ≡ vec_capacity listed.old }
{
    if listed.len() == listed.capacity() {
        listed.retain(|it| it.is_put);
    }
}

// Lists a number that isn't listed as put, where there is room for it.
fn insert_put(listed: &mut Vec<ListedNumber>, number: u64)
    requires listed { AreListed listed.old.items }
    requires within { number ≤ EVENTS_MAX }
    requires unlisted { IsUnlisted number listed.old.items }
    requires room { length listed.old.items < vec_capacity listed.old }
    ensures listed { AreListed listed.new.items }
    ensures put { numbers_put listed.new.items ≡ with_number number (numbers_put listed.old.items) }
    ensures capacity { vec_capacity listed.old ≤ vec_capacity listed.new }
{
    let Err(place) = find(listed, number) else {
        unreachable!()
    };
    let new = ListedNumber {
        number: number as u32,
        is_put: true,
    };
    let Ok(()) = listed.insert(place, new) else {
        unreachable!()
    };
}

// Takes a number that is put: it stays listed without its mark, and those at the end that aren't put are dropped.
fn take_number(listed: &mut Vec<ListedNumber>, number: u64)
    requires listed { AreListed listed.old.items }
    requires put { Contains (numbers_put listed.old.items) number }
    ensures listed { AreListed listed.new.items }
    ensures taken { numbers_put listed.new.items ≡ without_number number (numbers_put listed.old.items) }
    ensures capacity { vec_capacity listed.new ≡ vec_capacity listed.old }
{
    let Ok(place) = find(listed, number) else {
        unreachable!()
    };
    listed[place].is_put = false;
    let end = end_of_put(listed);
    listed.truncate(end);
}

// Where the list ends once those at the end that aren't put are dropped.
fn end_of_put(listed: &[ListedNumber]) -> usize
    ensures within { result ≤ length listed.now }
    ensures same { numbers_put (take result listed.now) ≡ numbers_put listed.now }
    ensures last { ends_put true (take result listed.now) ≡ true }
{
    let mut end = listed.len();
    while end > 0 && !listed[end - 1].is_put {
        end -= 1;
    }
    end
}

// The place of a number in a rising list, or the one where it belongs.
fn find(listed: &[ListedNumber], number: u64) -> Result<usize, usize>
    requires { RiseFrom 0 listed.now }
    ensures { MatchResult result (StandsAt number listed.now) (BelongsAt number listed.now) }
{
    // Mostly the number is above all others, which the last one tells.
    match listed.last() {
        Some(last) if number <= u64::from(last.number) => {
            listed.binary_search_by_key(&number, |it| u64::from(it.number))
        }
        _ => Err(listed.len()),
    }
}

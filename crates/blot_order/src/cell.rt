//! The cell of one order.
ghost use Rattle.std.specs.Prelude.{◌≡◌, ◌+◌, ◌<◌, ◌≤◌, pos, ◌≤ℤ◌, OnOk, OnErr};
ghost use Rattle.blot_types.specs.declared.TheConstants.{EVENTS_MAX};
ghost use Rattle.blot_order.specs.Cells.{no_tally, line_in, with_one_kept, without_one_kept, with_fill_put, with_fill_taken, CanPut, CanTake};
ghost use Rattle.blot_order.specs.Slots.{held_in_slots};
ghost use Rattle.blot_order.specs.Totals.{Fits};

use crate::fill_numbers::FillNumbers;
use crate::slots::put_at;
use crate::stored_fill::StoredFill;
use crate::totals::Totals;
use blot_types::OrderLine;
use std::alloc::{AllocError as NoMemory, Global};
use std::marker::Model;

/// What the fills of an order come to: the sums of those that are put, their numbers, rising, and how many are kept.
#[derive(Drop)]
pub(crate) struct Cell {
    totals: Totals,
    numbers: FillNumbers,
}

impl Model for Cell {
    ghost use Rattle.blot_order.specs.Cells.{Tally};

    ghost Value = { Tally };

    ghost view = { λ cell. record { totals = cell.totals; numbers = cell.numbers.put; kept = cell.numbers.kept } };
}

impl Cell {
    /// The cell of no fills. No memory is taken.
    pub(crate) fn new(alloc: Global) -> Cell
        ensures { result ≡ no_tally }
    {
        Cell {
            totals: Totals::none(),
            numbers: FillNumbers::new(alloc),
        }
    }

    /// Counts one more fill that is kept, with room for its number. An error leaves the cell as it was.
    pub(crate) fn add_kept(&mut self) -> Result<(), NoMemory>
        requires { self.old.kept ≤ EVENTS_MAX + 1 }
        ensures ok { OnOk result (self.new ≡ with_one_kept self.old) }
        ensures err { OnErr result (self.new ≡ self.old) }
    {
        self.numbers.add_kept()
    }

    /// Counts one fill less that is kept.
    pub(crate) fn sub_kept(&mut self)
        requires { 0 < self.old.kept }
        ensures { self.new ≡ without_one_kept self.old }
    {
        self.numbers.sub_kept();
    }

    /// Puts a fill that is kept under its number. It needs no memory.
    pub(crate) fn put(&mut self, number: u64, held: &StoredFill)
        requires { CanPut number self.old }
        ensures tally { self.new ≡ with_fill_put number held.now.fill self.old }
        ensures fits { Fits held.now.fill }
    {
        self.totals = self.totals.with_one(held);
        self.numbers.put(number);
    }

    /// Takes a fill that is put under a number, and keeps it. It needs no memory.
    pub(crate) fn take(&mut self, number: u64, held: &StoredFill)
        requires { CanTake number self.old }
        ensures { self.new ≡ with_fill_taken number held.now.fill self.old }
    {
        self.totals = self.totals.without_one(held);
        self.numbers.take(number);
    }

    /// The line of the order; none where no fill is put.
    pub(crate) fn line(&self, slots: &[Option<StoredFill>]) -> Option<OrderLine>
        requires { pos 0 ≤ℤ self.now.totals.cum }
        ensures { result ≡ line_in (held_in_slots slots.now) self.now }
    {
        match put_at(slots, self.numbers.last()) {
            Some(last) => Some(self.totals.line_with(last)),
            None => None,
        }
    }
}

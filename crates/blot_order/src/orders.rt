//! The fills by their number.
ghost use Rattle.std.specs.Prelude.{◌≡◌, ◌≤◌, Some, None, OnOk, OnErr, IfSome, IsSome};
ghost use Rattle.std.specs.Option.{ForSome};
ghost use Rattle.std.specs.FinMap as map;
ghost use Rattle.blot_types.specs.Order.{line_of, fills_of};
ghost use Rattle.blot_order.specs.Cells.{without_one_kept, ChangesWhere, CountsKept, HoldsSlots, IsPlaced, KeepsPlaces};
ghost use Rattle.blot_order.specs.Fills.{put_at, kept_at, with_put, with_kept, fills_put};
ghost use Rattle.blot_order.specs.Slots.{held_by, held_in_slots, kept_under, keeps_under, placed_at, put_under};

use crate::cells::{Cells, add_kept, put_fill, sub_kept, take_fill};
use crate::slots::{fill_at, mark, reach};
use crate::stored_fill::StoredFill;
use blot_types::{EVENTS_MAX, Fill, OrderKey, OrderLine};
use indexmap::IndexMap;
use std::alloc::{AllocError as NoMemory, Global};
use std::marker::Model;

/// The fills of executions by their number. A contract sees it as a finite map from number to what is held
/// there: a fill that is put, or one that is kept since it was taken.
#[derive(Drop)]
pub struct Orders {
    alloc: Global,
    // Slot n is that of number n; the numbers past the last slot hold nothing.
    slots: Vec<Option<StoredFill>>,
    // What the fills of each order come to.
    cells: Cells,
}

impl Model for Orders {
    ghost use Rattle.blot_order.specs.Cells.{HoldsSlots};
    ghost use Rattle.blot_order.specs.Fills.{Fills, fills_code};
    ghost use Rattle.blot_order.specs.Slots.{held_by, held_in_slots};

    ghost Value = { Fills };

    ghost coded = { fills_code };

    ghost view = { λ orders. held_by (held_in_slots orders.slots.items) };

    ghost invariant = { λ orders. HoldsSlots orders.cells.entries orders.slots.items };
}

impl Orders {
    /// No fill under any number. No memory is taken.
    pub fn new(alloc: Global) -> Orders
        ensures { result ≡ map.empty }
    {
        Orders {
            alloc,
            slots: Vec::new(alloc),
            cells: IndexMap::new(alloc),
        }
    }

    /// Puts a fill under a number that has none put, in place of one that is kept there. Out of memory is
    /// the only error, and then nothing has changed.
    pub fn put(&mut self, number: u64, fill: &Fill) -> Result<(), NoMemory>
        requires unput { put_at self.old number ≡ None }
        requires within { number ≤ EVENTS_MAX }
        ensures ok { OnOk result (self.new ≡ with_put number fill.now self.old) }
        ensures err { OnErr result (self.new ≡ self.old) }
    {
        keep_fill(&mut self.slots, &mut self.cells, self.alloc, number, fill)?;
        put_kept(&mut self.slots, &mut self.cells, number);
        Ok(())
    }

    /// Makes room for a fill under a number that has none put: the fill is kept there, so that it is put without memory.
    /// Out of memory is the only error, and then nothing has changed.
    pub fn hold(&mut self, number: u64, fill: &Fill) -> Result<(), NoMemory>
        requires unput { put_at self.old number ≡ None }
        requires within { number ≤ EVENTS_MAX }
        ensures ok { OnOk result (self.new ≡ with_kept number fill.now self.old) }
        ensures err { OnErr result (self.new ≡ self.old) }
    {
        keep_fill(&mut self.slots, &mut self.cells, self.alloc, number, fill)
    }

    /// Takes the fill that is put under a number, and keeps it there. It needs no memory.
    pub fn take(&mut self, number: u64, fill: &Fill)
        requires { put_at self.old number ≡ Some fill.now }
        ensures { self.new ≡ with_kept number fill.now self.old }
    {
        mark(&mut self.slots[number as usize], false);
        match fill_at(&self.slots, number) {
            Some(held) => take_fill(&mut self.cells, number, held),
            None => unreachable!(),
        }
    }

    /// Puts the fill that is kept under a number again. It needs no memory.
    pub fn un_take(&mut self, number: u64)
        requires { IsSome (kept_at self.old number) }
        ensures { ForSome (kept_at self.old number) (λ fill. self.new ≡ with_put number fill self.old) }
    {
        put_kept(&mut self.slots, &mut self.cells, number);
    }

    /// The line of an order from its fills that are put, or none without one: the sums of all, what is left
    /// of the size, never below 0, and the symbol, sign and size of the one with the greatest number.
    /// FIX 4.4 volume 4, CumQty(14) and LeavesQty(151).
    pub fn get(&self, order: &OrderKey) -> Option<OrderLine>
        ensures { result ≡ line_of (fills_of (fills_put self.now) order.now) }
    {
        match self.cells.get(order) {
            Some(cell) => cell.line(&self.slots),
            None => None,
        }
    }
}

// Keeps a fill under a number that has none put, in place of one that is kept there. What may fail comes first.
fn keep_fill(
    slots: &mut Vec<Option<StoredFill>>,
    cells: &mut Cells,
    alloc: Global,
    number: u64,
    fill: &Fill,
) -> Result<(), NoMemory>
    requires holds { HoldsSlots cells.old.entries slots.old.items }
    requires unput { put_at (held_by (held_in_slots slots.old.items)) number ≡ None }
    requires within { number ≤ EVENTS_MAX }
    ensures holds { HoldsSlots cells.new.entries slots.new.items }
    ensures ok { OnOk result (held_by (held_in_slots slots.new.items) ≡ with_kept number fill.now (held_by (held_in_slots slots.old.items))) }
    ensures err { OnErr result (held_by (held_in_slots slots.new.items) ≡ held_by (held_in_slots slots.old.items)) }
{
    let index = number as usize;
    reach(slots, index)?;
    let place = add_kept(cells, alloc, &fill.order)?;
    forget_kept(cells, slots, number);
    slots[index] = Some(StoredFill::kept(fill, place));
    Ok(())
}

// Counts one less of the order whose fill is kept under a number that has none put, if one is.
fn forget_kept(cells: &mut Cells, slots: &[Option<StoredFill>], number: u64)
    requires placed { IfSome (placed_at slots.now number) (IsPlaced cells.old.entries) }
    requires unput { put_under (held_in_slots slots.now) number ≡ None }
    requires kept { CountsKept cells.old.entries (kept_under (held_in_slots slots.now) number) }
    ensures tallies { ChangesWhere (keeps_under (held_in_slots slots.now) number) without_one_kept cells.old.entries cells.new.entries }
    ensures places { KeepsPlaces cells.old.entries cells.new.entries }
{
    if let Some(held) = fill_at(slots, number) {
        sub_kept(cells, held);
    }
}

// Puts the fill that is kept under a number.
fn put_kept(slots: &mut Vec<Option<StoredFill>>, cells: &mut Cells, number: u64)
    requires holds { HoldsSlots cells.old.entries slots.old.items }
    requires kept { IsSome (kept_under (held_in_slots slots.old.items) number) }
    ensures holds { HoldsSlots cells.new.entries slots.new.items }
    ensures fills { ForSome (kept_under (held_in_slots slots.old.items) number) (λ fill. held_by (held_in_slots slots.new.items) ≡ with_put number fill (held_by (held_in_slots slots.old.items))) }
{
    mark(&mut slots[number as usize], true);
    match fill_at(slots, number) {
        Some(held) => put_fill(cells, number, held),
        None => unreachable!(),
    }
}

//! The cells of the orders.
ghost use Rattle.std.specs.Prelude.{◌≡◌, ◌+◌, ◌<◌, ◌≤◌, None, Some, OnOk, OnErr, IfOk};
ghost use Rattle.std.specs.Map.{lookup};
ghost use Rattle.blot_types.specs.declared.TheConstants.{EVENTS_MAX};
ghost use Rattle.blot_types.specs.Keys.{same_order};
ghost use Rattle.blot_order.specs.Cells.{order_at, tally_at, with_one_kept, without_one_kept, with_fill_put, with_fill_taken, Changes, CanPut, CanTake, IsPlaced, KeepsPlaces};
ghost use Rattle.blot_order.specs.Totals.{Fits};

use crate::cell::Cell;
use crate::stored_fill::StoredFill;
use blot_types::OrderKey;
use indexmap::IndexMap;
use std::alloc::{AllocError as NoMemory, Global};

/// The cells of the orders that had a fill. A cell that was made stays, and stays at its place.
pub(crate) type Cells = IndexMap<OrderKey, Cell>;

/// Counts one more fill of an order that is kept, in a cell that is made where there is none, and tells the place of the cell.
/// An error leaves each tally.
pub(crate) fn add_kept(
    cells: &mut Cells,
    alloc: Global,
    order: &OrderKey,
) -> Result<usize, NoMemory>
    requires { (tally_at cells.old.entries order.now).kept ≤ EVENTS_MAX + 1 }
    ensures place { IfOk result (λ place. order_at cells.new.entries place ≡ Some order.now) }
    ensures places { KeepsPlaces cells.old.entries cells.new.entries }
    ensures ok { OnOk result (Changes order.now with_one_kept cells.old.entries cells.new.entries) }
    ensures err { OnErr result (Changes order.now (λ tally. tally) cells.old.entries cells.new.entries) }
{
    let Some(place) = cells.get_index_of(order) else {
        return make_cell(cells, alloc, order);
    };
    match cells.get_index_mut(place) {
        Some(cell) => cell.add_kept()?,
        None => unreachable!(),
    }
    Ok(place)
}

// Makes the cell of an order that has none, with one fill that is kept, and tells its place.
fn make_cell(cells: &mut Cells, alloc: Global, order: &OrderKey) -> Result<usize, NoMemory>
    requires { lookup (same_order order.now) cells.old.entries ≡ None }
    ensures place { IfOk result (λ place. order_at cells.new.entries place ≡ Some order.now) }
    ensures places { KeepsPlaces cells.old.entries cells.new.entries }
    ensures ok { OnOk result (Changes order.now with_one_kept cells.old.entries cells.new.entries) }
    ensures err { OnErr result (cells.new.entries ≡ cells.old.entries) }
{
    let mut cell = Cell::new(alloc);
    cell.add_kept()?;
    let place = cells.len();
    cells.insert(*order, cell)?;
    Ok(place)
}

/// Counts one fill less that is kept, in the cell of its order.
pub(crate) fn sub_kept(cells: &mut Cells, held: &StoredFill)
    requires placed { IsPlaced cells.old.entries held.now }
    requires kept { 0 < (tally_at cells.old.entries held.now.fill.order).kept }
    ensures tallies { Changes held.now.fill.order without_one_kept cells.old.entries cells.new.entries }
    ensures places { KeepsPlaces cells.old.entries cells.new.entries }
{
    match cells.get_index_mut(held.place()) {
        Some(cell) => cell.sub_kept(),
        None => unreachable!(),
    }
}

/// Puts a fill that is kept under its number, in the cell of its order.
pub(crate) fn put_fill(cells: &mut Cells, number: u64, held: &StoredFill)
    requires placed { IsPlaced cells.old.entries held.now }
    requires can { CanPut number (tally_at cells.old.entries held.now.fill.order) }
    ensures tallies { Changes held.now.fill.order (with_fill_put number held.now.fill) cells.old.entries cells.new.entries }
    ensures fits { Fits held.now.fill }
    ensures places { KeepsPlaces cells.old.entries cells.new.entries }
{
    match cells.get_index_mut(held.place()) {
        Some(cell) => cell.put(number, held),
        None => unreachable!(),
    }
}

/// Takes a fill that is put under a number and keeps it, in the cell of its order.
pub(crate) fn take_fill(cells: &mut Cells, number: u64, held: &StoredFill)
    requires placed { IsPlaced cells.old.entries held.now }
    requires can { CanTake number (tally_at cells.old.entries held.now.fill.order) }
    ensures tallies { Changes held.now.fill.order (with_fill_taken number held.now.fill) cells.old.entries cells.new.entries }
    ensures places { KeepsPlaces cells.old.entries cells.new.entries }
{
    match cells.get_index_mut(held.place()) {
        Some(cell) => cell.take(number, held),
        None => unreachable!(),
    }
}

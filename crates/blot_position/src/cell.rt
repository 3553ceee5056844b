//! The cells in which the sums are stored, by position.
ghost use Rattle.std.specs.Prelude.{◌≡◌, IsTrue, IfOk, OnOk, OnErr};
ghost use Rattle.std.specs.List.{IsDistinct};
ghost use Rattle.std.specs.Map.{keys_of};
ghost use Rattle.blot_position.specs.Cells.{added_in, cells_in, has_cell_in, opened_in, sums_in, taken_in};
ghost use Rattle.blot_position.specs.Positions.{same_key};
ghost use Rattle.blot_position.specs.Sums.{HasRoom, HasPart};

use crate::Sums;
use blot_decimal::{QtySum, Value};
use blot_types::PositionKey;
use indexmap::IndexMap;
use std::alloc::{AllocError as NoMemory, Global};

/// The sums of the positions for which a cell was made. A cell that was made stays.
pub(crate) type Cells = IndexMap<PositionKey, Sums>;

/// The sums of a position; without a cell those of no parts.
pub(crate) fn sums_of(cells: &Cells, position: &PositionKey) -> Sums
    ensures { result ≡ sums_in cells.now.entries position.now }
{
    match cells.get(position) {
        Some(sums) => *sums,
        None => Sums::none(),
    }
}

/// The positions for which a cell was made, each once. An error is out of memory.
pub(crate) fn keys_of(alloc: Global, cells: &Cells) -> Result<Vec<PositionKey>, NoMemory>
    ensures keys { IfOk result (λ keys. keys.items ≡ keys_of cells.now.entries) }
    ensures once { IsDistinct same_key (keys_of cells.now.entries) }
{
    cells.keys().copied().collect(alloc)
}

/// Whether a cell was made for a position.
pub(crate) fn is_made(cells: &Cells, position: &PositionKey) -> bool
    ensures { result ≡ has_cell_in cells.now.entries position.now }
{
    cells.contains_key(position)
}

/// Makes a cell for a position that has none. An error leaves the cells as they were.
pub(crate) fn make_cell(cells: &mut Cells, position: &PositionKey) -> Result<(), NoMemory>
    ensures ok { OnOk result (cells_in cells.new.entries ≡ opened_in position.now cells.old.entries) }
    ensures err { OnErr result (cells_in cells.new.entries ≡ cells_in cells.old.entries) }
{
    if cells.get(position).is_none() {
        cells.insert(*position, Sums::none())?;
    }
    Ok(())
}

/// Adds a part to a position, for which a cell is made where it has none. An error leaves the cells as they were.
pub(crate) fn put_part(
    cells: &mut Cells,
    position: &PositionKey,
    qty: QtySum,
    value: Value,
) -> Result<(), NoMemory>
    requires { HasRoom (sums_in cells.old.entries position.now) qty value }
    ensures ok { OnOk result (cells_in cells.new.entries ≡ added_in position.now qty value cells.old.entries) }
    ensures err { OnErr result (cells_in cells.new.entries ≡ cells_in cells.old.entries) }
{
    let entry = cells.entry(*position)?;
    entry.or_insert(Sums::none()).add(qty, value);
    Ok(())
}

/// Adds a part to a position for which a cell was made.
pub(crate) fn add_part(cells: &mut Cells, position: &PositionKey, qty: QtySum, value: Value)
    requires made { IsTrue (has_cell_in cells.old.entries position.now) }
    requires room { HasRoom (sums_in cells.old.entries position.now) qty value }
    ensures { cells_in cells.new.entries ≡ added_in position.now qty value cells.old.entries }
{
    match cells.get_mut(position) {
        Some(sums) => sums.add(qty, value),
        None => unreachable!(),
    }
}

/// Takes a part of a position away. Its cell stays.
pub(crate) fn sub_part(cells: &mut Cells, position: &PositionKey, qty: QtySum, value: Value)
    requires { HasPart (sums_in cells.old.entries position.now) qty value }
    ensures { cells_in cells.new.entries ≡ taken_in position.now qty value cells.old.entries }
{
    match cells.get_mut(position) {
        Some(sums) => *sums = sums.without_part(qty, value),
        None => unreachable!(),
    }
}

//! The rows of positions.
ghost use Rattle.std.specs.Prelude.{◌≡◌, IfOk};
ghost use Rattle.blot_command.specs.Standings.{standings_of};
ghost use Rattle.blot_report.specs.Day.{day_parts_of};
ghost use Rattle.blot_report.specs.Lines.{position_rows};
ghost use Rattle.blot_report.specs.Standings.{AreTold, entries_in};
ghost use Rattle.blot_report.specs.Sums.{ArePositionsOf, cell_row, cell_rows};

use crate::PositionRow;
use crate::parts::{positions_in_halves, positions_on};
use crate::pieces::in_pieces;
use blot_command::{Reported, Standing, Told};
use blot_position::Positions;
use blot_time::Day;
use blot_types::PositionKey;
use std::alloc::{AllocError as NoMemory, Global};
use std::thread::Threads;

/// The rows of the positions of a day, by account and then by symbol. An error is out of memory.
pub(crate) fn position_rows(
    alloc: Global,
    told: &[Told],
    day: &Option<Day>,
) -> Result<Vec<PositionRow>, NoMemory>
    requires { AreTold told.now }
    ensures { IfOk result (λ rows. rows.items ≡ position_rows (day_parts_of (entries_in told.now) day.now)) }
{
    let positions = positions_on(alloc, told, day)?;
    let keys = sorted_positions(alloc, &positions)?;
    rows_of(alloc, &positions, &keys)
}

/// The same of a book by its standings, where each half of the entries is a thread's, and each piece of the positions a worker's.
pub(crate) fn position_rows_in_pieces<R: Threads + Sync, B: Reported + Sync>(
    rt: &R,
    alloc: Global,
    book: &B,
    standings: &[Standing],
    day: &Option<Day>,
) -> Result<Vec<PositionRow>, NoMemory>
    requires { standings.now ≡ standings_of (B.list_of book.now) }
    ensures { IfOk result (λ rows. rows.items ≡ position_rows (day_parts_of (B.list_of book.now) day.now)) }
{
    let positions = positions_in_halves(rt, alloc, book, standings, day)?;
    let keys = sorted_positions(alloc, &positions)?;
    rows_in_pieces(rt, alloc, &positions, &keys)
}

// The rows of some positions, where each piece of them is a worker's.
fn rows_in_pieces<R: Threads + Sync>(
    rt: &R,
    alloc: Global,
    positions: &Positions,
    keys: &[PositionKey],
) -> Result<Vec<PositionRow>, NoMemory>
    ensures { IfOk result (λ rows. rows.items ≡ cell_rows positions.now keys.now) }
{
    in_pieces(
        rt,
        alloc,
        keys,
        |piece: &[PositionKey]| -> Result<Vec<PositionRow>, NoMemory>
            ensures { IfOk result (λ rows. rows.items ≡ cell_rows positions.entry.now piece.now) }
        { rows_of(alloc, positions, piece) },
    )
}

// The positions for which a cell was made, sorted.
fn sorted_positions(alloc: Global, positions: &Positions) -> Result<Vec<PositionKey>, NoMemory>
    ensures { IfOk result (λ keys. ArePositionsOf positions.now keys.items) }
{
    let mut keys = positions.keys(alloc)?;
    keys.sort_unstable();
    Ok(keys)
}

// The rows of some positions: one for each that has a part.
fn rows_of(
    alloc: Global,
    positions: &Positions,
    keys: &[PositionKey],
) -> Result<Vec<PositionRow>, NoMemory>
    ensures { IfOk result (λ rows. rows.items ≡ cell_rows positions.now keys.now) }
{
    let mut rows = Vec::new(alloc);
    for position in keys {
        if let Some(row) = row_of(positions, position) {
            rows.push(row)?;
        }
    }
    Ok(rows)
}

// The row of a position, if it has a part.
fn row_of(positions: &Positions, position: &PositionKey) -> Option<PositionRow>
    ensures { result ≡ cell_row positions.now position.now }
{
    match positions.get(&position.account, &position.symbol) {
        None => None,
        Some(line) => Some(PositionRow {
            position: *position,
            line,
        }),
    }
}

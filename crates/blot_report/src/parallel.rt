//! The lines of a day, from several threads.
ghost use Rattle.std.specs.Prelude.{◌≡◌, IfOk, Some};
ghost use Rattle.blot_report.specs.Day.{day_parts_of, fills_on};
ghost use Rattle.blot_report.specs.Laws.{IsOfOneDay, ShowsDay, ShowsBook};
ghost use Rattle.blot_report.specs.Lines.{day_lines_of, order_rows, position_rows};
ghost use Rattle.blot_command.specs.Standings.{standings_of};

use crate::orders::order_rows_in_pieces;
use crate::positions::position_rows_in_pieces;
use crate::{DayLines, OrderRow, PositionRow};
use blot_command::{Reported, Rows};
use blot_time::Day;
use std::alloc::{AllocError as NoMemory, Global};
use std::thread::{Threads, join};

/// The lines of a day, as `day_lines` gives them, from several threads: orders and positions are made side by side, and the
/// rows of each in pieces, which are joined in order. An error is out of memory, in any of them.
pub fn day_lines_parallel<R: Threads + Sync, B: Reported + Sync>(
    rt: &R,
    alloc: Global,
    book: &B,
    day: Day,
) -> Result<DayLines, NoMemory>
    ensures lines { IfOk result (λ lines. lines ≡ day_lines_of (B.list_of book.now) day) }

    // As of `day_lines`: each order and each position of the day is found among the lines, and no other.
    ensures shown { IfOk result (ShowsDay (B.list_of book.now) day) }
    ensures whole { IfOk result (λ lines. IsOfOneDay (B.list_of book.now) day → ShowsBook (B.list_of book.now) lines) }
{
    let standings = book.standings(alloc)?;
    let standings = standings.as_slice();
    let wanted = &Some(day);
    let (orders, positions) = join(
        rt,
        || -> Result<Vec<OrderRow>, NoMemory>
            requires { standings.now ≡ standings_of (B.list_of book.now) }
            ensures { IfOk result (λ rows. rows.items ≡ order_rows (fills_on (B.list_of book.entry.now) wanted.entry.now)) }
        { order_rows_in_pieces(rt, alloc, book, standings, wanted) },
        || -> Result<Vec<PositionRow>, NoMemory>
            requires { standings.now ≡ standings_of (B.list_of book.now) }
            ensures { IfOk result (λ rows. rows.items ≡ position_rows (day_parts_of (B.list_of book.entry.now) wanted.entry.now)) }
        { position_rows_in_pieces(rt, alloc, book, standings, wanted) },
    );
    let orders = orders?;
    let positions = positions?;
    Ok(DayLines {
        day,
        orders: Rows::new(orders),
        positions: Rows::new(positions),
    })
}

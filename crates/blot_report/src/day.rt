//! The lines of a day, over a book or a snapshot of one.
ghost use Rattle.std.specs.Prelude.{◌≡◌, IfOk};
ghost use Rattle.blot_report.specs.Laws.{IsOfOneDay, ShowsDay, ShowsBook};
ghost use Rattle.blot_report.specs.Lines.{day_lines_of};

use crate::DayLines;
use crate::orders::order_rows;
use crate::positions::position_rows;
use blot_command::{Reported, Rows};
use blot_time::Day;
use std::alloc::{AllocError as NoMemory, Global};

/// The lines of a day, over a snapshot or a book: of each order and each position that the executions that stand and the live
/// allocations of that day show. Whether an execution sits in the house account is decided by the live allocations of all days.
/// An error is out of memory.
pub fn day_lines<B: Reported>(alloc: Global, book: &B, day: Day) -> Result<DayLines, NoMemory>
    ensures lines { IfOk result (λ lines. lines ≡ day_lines_of (B.list_of book.now) day) }

    // Each order and each position of the day is found among the lines, and no other. Where all that stands is of that
    // day, so is each of the whole book.
    ensures shown { IfOk result (ShowsDay (B.list_of book.now) day) }
    ensures whole { IfOk result (λ lines. IsOfOneDay (B.list_of book.now) day → ShowsBook (B.list_of book.now) lines) }
{
    let standings = book.standings(alloc)?;
    let told = book.told(alloc, &standings)?;
    let orders = order_rows(alloc, &told, &Some(day))?;
    let positions = position_rows(alloc, &told, &Some(day))?;
    Ok(DayLines {
        day,
        orders: Rows::new(orders),
        positions: Rows::new(positions),
    })
}

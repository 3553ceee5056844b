//! The rows of orders.
ghost use Rattle.std.specs.Prelude.{◌≡◌, IfOk, OnOk};
ghost use Rattle.std.specs.List.{IsDistinct};
ghost use Rattle.std.specs.Map.{keys_of};
ghost use Rattle.blot_types.specs.Keys.{same_order};
ghost use Rattle.blot_types.specs.Order.{IsWithin};
ghost use Rattle.blot_command.specs.Standings.{standings_of};
ghost use Rattle.blot_report.specs.Lines.{order_rows};
ghost use Rattle.blot_report.specs.Day.{fills_on};
ghost use Rattle.blot_report.specs.Orders.{line_at, line_row, line_rows, AddsFill, AreLinesOf, AreOrdersOf, GrowsByOne};
ghost use Rattle.blot_report.specs.Standings.{AreTold, entries_in};

use crate::OrderRow;
use crate::pieces::in_pieces;
use crate::standing::{fill_on, told_at};
use blot_command::{Reported, Standing, Told};
use blot_time::Day;
use blot_types::{EVENTS_MAX, Fill, OrderKey, OrderLine};
use indexmap::IndexMap;
use std::alloc::{AllocError as NoMemory, Global};
use std::thread::Threads;

// The line of each order, as far as its fills have come.
type Lines = IndexMap<OrderKey, OrderLine>;

/// The rows of the orders that the executions of a day fill, of those that stand, by peer and then by OrderID. An error is out of
/// memory.
pub(crate) fn order_rows(
    alloc: Global,
    told: &[Told],
    day: &Option<Day>,
) -> Result<Vec<OrderRow>, NoMemory>
    requires { AreTold told.now }
    ensures { IfOk result (λ rows. rows.items ≡ order_rows (fills_on (entries_in told.now) day.now)) }
{
    let lines = lines_of(alloc, told, day)?;
    let keys = sorted_orders(alloc, &lines)?;
    rows_of(alloc, &lines, &keys)
}

/// The same of a book by its standings, where each piece of the orders is a worker's.
pub(crate) fn order_rows_in_pieces<R: Threads + Sync, B: Reported>(
    rt: &R,
    alloc: Global,
    book: &B,
    standings: &[Standing],
    day: &Option<Day>,
) -> Result<Vec<OrderRow>, NoMemory>
    requires { standings.now ≡ standings_of (B.list_of book.now) }
    ensures { IfOk result (λ rows. rows.items ≡ order_rows (fills_on (B.list_of book.now) day.now)) }
{
    let told = book.told(alloc, standings)?;
    let lines = lines_of(alloc, &told, day)?;
    let keys = sorted_orders(alloc, &lines)?;
    rows_in_pieces(rt, alloc, &lines, &keys)
}

// The rows of some orders, where each piece of them is a worker's.
fn rows_in_pieces<R: Threads + Sync>(
    rt: &R,
    alloc: Global,
    lines: &Lines,
    keys: &[OrderKey],
) -> Result<Vec<OrderRow>, NoMemory>
    ensures { IfOk result (λ rows. rows.items ≡ line_rows lines.now.entries keys.now) }
{
    in_pieces(
        rt,
        alloc,
        keys,
        |piece: &[OrderKey]| -> Result<Vec<OrderRow>, NoMemory>
            ensures { IfOk result (λ rows. rows.items ≡ line_rows lines.entry.now.entries piece.now) }
        { rows_of(alloc, lines, piece) },
    )
}

// The lines of the orders that the executions of a day fill, of those that stand.
fn lines_of(alloc: Global, told: &[Told], day: &Option<Day>) -> Result<Lines, NoMemory>
    requires { AreTold told.now }
    ensures { IfOk result (λ lines. AreLinesOf lines.entries (fills_on (entries_in told.now) day.now)) }
{
    let mut lines = IndexMap::new(alloc);
    for place in 0..told.len() {
        if let Some(fill) = fill_on(told_at(told, place), day) {
            add_fill(&mut lines, fill)?;
        }
    }
    Ok(lines)
}

// Adds a fill to the line of its order.
fn add_fill(lines: &mut Lines, fill: &Fill) -> Result<(), NoMemory>
    requires { IsWithin EVENTS_MAX (line_at lines.old.entries fill.now.order) }
    ensures lines { OnOk result (AddsFill fill.now lines.old.entries lines.new.entries) }
    ensures grows { GrowsByOne fill.now lines.old.entries }
{
    match lines.get_mut(&fill.order) {
        Some(line) => {
            *line = OrderLine::with_fill(Some(*line), fill);
        }
        None => {
            lines.insert(fill.order, OrderLine::with_fill(None, fill))?;
        }
    }
    Ok(())
}

// The line of an order, if a fill of it has come.
fn line_of(lines: &Lines, order: &OrderKey) -> Option<OrderLine>
    ensures { result ≡ line_at lines.now.entries order.now }
{
    lines.get(order).copied()
}

// The orders that have a line, sorted.
fn sorted_orders(alloc: Global, lines: &Lines) -> Result<Vec<OrderKey>, NoMemory>
    ensures { IfOk result (λ keys. AreOrdersOf lines.now.entries keys.items) }
{
    let mut keys = orders_of(alloc, lines)?;
    keys.sort_unstable();
    Ok(keys)
}

// The orders that have a line, each once.
fn orders_of(alloc: Global, lines: &Lines) -> Result<Vec<OrderKey>, NoMemory>
    ensures keys { IfOk result (λ keys. keys.items ≡ keys_of lines.now.entries) }
    ensures once { IsDistinct same_order (keys_of lines.now.entries) }
{
    lines.keys().copied().collect(alloc)
}

// The rows of some orders: one for each that has a line.
fn rows_of(alloc: Global, lines: &Lines, keys: &[OrderKey]) -> Result<Vec<OrderRow>, NoMemory>
    ensures { IfOk result (λ rows. rows.items ≡ line_rows lines.now.entries keys.now) }
{
    let mut rows = Vec::new(alloc);
    for order in keys {
        if let Some(row) = row_of(lines, order) {
            rows.push(row)?;
        }
    }
    Ok(rows)
}

// The row of an order, if it has a line.
fn row_of(lines: &Lines, order: &OrderKey) -> Option<OrderRow>
    ensures { result ≡ line_row lines.now.entries order.now }
{
    match line_of(lines, order) {
        None => None,
        Some(line) => Some(OrderRow {
            order: *order,
            line,
        }),
    }
}

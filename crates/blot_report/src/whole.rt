//! The lines of the orders and of the positions of a book, over all days.
ghost use Rattle.std.specs.Prelude.{◌≡◌, IfOk, filter};
ghost use Rattle.blot_report.specs.Laws.{ShowsOrders, ShowsPositions};
ghost use Rattle.blot_report.specs.Lines.{is_of, order_lines_of, position_lines_of};

use crate::orders::order_rows;
use crate::positions::position_rows;
use crate::{OrderRow, PositionRow};
use blot_command::{Reported, Rows};
use blot_types::Text64;
use std::alloc::{AllocError as NoMemory, Global};

/// The lines of the orders of a snapshot or a book over all days, by peer and then by OrderID: of all peers, or of one. An error is out of
/// memory. This project's rule.
pub fn order_lines<B: Reported>(
    alloc: Global,
    book: &B,
    peer: &Option<Text64>,
) -> Result<Rows<OrderRow>, NoMemory>
    ensures lines { IfOk result (λ rows. rows ≡ order_lines_of (B.list_of book.now) peer.now) }

    // Each order of the book that is asked for is found among the rows with its line, and no other.
    ensures shown { IfOk result (ShowsOrders (B.list_of book.now) peer.now) }
{
    let standings = book.standings(alloc)?;
    let told = book.told(alloc, &standings)?;
    let rows = order_rows(alloc, &told, &None)?;
    let kept = orders_of(alloc, &rows, peer)?;
    Ok(Rows::new(kept))
}

/// The lines of the positions of a snapshot or a book over all days, by account and then by symbol: of all accounts, or of one. An error
/// is out of memory. This project's rule.
pub fn position_lines<B: Reported>(
    alloc: Global,
    book: &B,
    account: &Option<Text64>,
) -> Result<Rows<PositionRow>, NoMemory>
    ensures lines { IfOk result (λ rows. rows ≡ position_lines_of (B.list_of book.now) account.now) }

    // Each position of the book that is asked for is found among the rows with its line, and no other.
    ensures shown { IfOk result (ShowsPositions (B.list_of book.now) account.now) }
{
    let standings = book.standings(alloc)?;
    let told = book.told(alloc, &standings)?;
    let rows = position_rows(alloc, &told, &None)?;
    let kept = positions_of(alloc, &rows, account)?;
    Ok(Rows::new(kept))
}

// The rows of the orders of a peer, where one is asked for.
fn orders_of(
    alloc: Global,
    rows: &[OrderRow],
    peer: &Option<Text64>,
) -> Result<Vec<OrderRow>, NoMemory>
    ensures { IfOk result (λ kept. kept.items ≡ filter (λ row. is_of row.order.peer peer.now) rows.now) }
{
    let mut kept = Vec::new(alloc);
    for row in rows {
        if is_of(&row.order.peer, peer) {
            kept.push(*row)?;
        }
    }
    Ok(kept)
}

// The rows of the positions of an account, where one is asked for.
fn positions_of(
    alloc: Global,
    rows: &[PositionRow],
    account: &Option<Text64>,
) -> Result<Vec<PositionRow>, NoMemory>
    ensures { IfOk result (λ kept. kept.items ≡ filter (λ row. is_of row.position.account account.now) rows.now) }
{
    let mut kept = Vec::new(alloc);
    for row in rows {
        if is_of(&row.position.account, account) {
            kept.push(*row)?;
        }
    }
    Ok(kept)
}

// Whether a key's first text is the one that is asked for, where one is.
fn is_of(own: &Text64, wanted: &Option<Text64>) -> bool
    ensures { result ≡ is_of own.now wanted.now }
{
    match wanted {
        None => true,
        Some(wanted) => *own == *wanted,
    }
}

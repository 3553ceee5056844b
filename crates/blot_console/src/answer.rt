//! What an operator is answered.
ghost use Rattle.std.specs.Prelude.{◌≡◌, IfOk};
ghost use Rattle.blot_console.specs.Answers.{order_answer, position_answer, bad_text, answer_text, CanBeTold};
ghost use Rattle.blot_console.specs.Founds.{orders_answer, positions_answer};

use crate::LineFault;
use crate::found::{found_by_text, found_text, put_end};
use crate::open_day::{SessionLine, sessions_text};
use crate::telling::{put_number, reply_text, word_line};
use blot_command::Rows;
use blot_desk::{Found, Reply};
use blot_report::{
    DayLines, OrderRow, PositionRow, put_order_line, put_position_line, report_text,
};
use blot_types::{OrderKey, OrderLine, PositionKey, PositionLine, Text64};
use std::alloc::{AllocError as NoMemory, Global};

/// What an operator is answered.
#[derive(Debug, PartialEq, Eq, Drop)]
pub enum Answer {
    /// What the desk replied to an event other than a question.
    Replied(Reply),
    /// The line of the order that was asked for, or none.
    Order(OrderKey, Option<OrderLine>),
    /// The position that was asked for, of an account, `*` the house account, in a symbol, or none.
    Position(Text64, Text64, Option<PositionLine>),
    /// The report of a day.
    Report(DayLines),
    /// The line asks nothing.
    Bad(LineFault),
    /// The desk takes no more events.
    Full,
    /// No entry is there to be withdrawn.
    Nothing,
    /// What the desk found to a question.
    Found(Found),
    /// What the desk found to a question, and who made each row of done steps and of refused commands, in their order.
    FoundBy(Found, Rows<Text64>),
    /// Lines of orders.
    Orders(Rows<OrderRow>),
    /// Lines of positions.
    Positions(Rows<PositionRow>),
    /// The session of each peer of an open day.
    Sessions(Rows<SessionLine>),
    /// The day is closed.
    Closed,
}

/// The text of an answer, whole lines. A reply to a question has to come with the key that was asked for, as `Order` or
/// `Position`. An error is out of memory. This project's rule.
pub fn answer_text(alloc: Global, answer: &Answer) -> Result<Vec<u8>, NoMemory>
    requires { CanBeTold answer.now }
    ensures { IfOk result (λ text. text.items ≡ answer_text answer.now) }
{
    match answer {
        Answer::Replied(reply) => reply_text(alloc, reply),
        Answer::Order(order, line) => order_answer(alloc, order, line),
        Answer::Position(account, symbol, line) => position_answer(alloc, account, symbol, line),
        Answer::Report(lines) => report_text(alloc, lines),
        Answer::Bad(fault) => bad_text(alloc, *fault),
        Answer::Full => word_line(alloc, b"full"),
        Answer::Nothing => word_line(alloc, b"none"),
        Answer::Found(found) => found_text(alloc, found),
        Answer::FoundBy(found, makers) => found_by_text(alloc, found, makers.as_slice()),
        Answer::Orders(rows) => orders_text(alloc, rows.as_slice()),
        Answer::Positions(rows) => positions_text(alloc, rows.as_slice()),
        Answer::Sessions(lines) => sessions_text(alloc, lines.as_slice()),
        Answer::Closed => word_line(alloc, b"closed"),
    }
}

// The line of an order, if it has one.
fn order_answer(
    alloc: Global,
    order: &OrderKey,
    line: &Option<OrderLine>,
) -> Result<Vec<u8>, NoMemory>
    ensures { IfOk result (λ text. text.items ≡ order_answer order.now line.now) }
{
    let Some(line) = line else {
        return word_line(alloc, b"none");
    };
    let mut text = Vec::new(alloc);
    put_order_line(alloc, &mut text, order, line)?;
    Ok(text)
}

// The line of a position, if it has one.
fn position_answer(
    alloc: Global,
    account: &Text64,
    symbol: &Text64,
    line: &Option<PositionLine>,
) -> Result<Vec<u8>, NoMemory>
    ensures { IfOk result (λ text. text.items ≡ position_answer account.now symbol.now line.now) }
{
    let Some(line) = line else {
        return word_line(alloc, b"none");
    };
    let mut text = Vec::new(alloc);
    put_position_line(alloc, &mut text, account, symbol, line)?;
    Ok(text)
}

// Lines of orders, and how many they are.
fn orders_text(alloc: Global, rows: &[OrderRow]) -> Result<Vec<u8>, NoMemory>
    ensures { IfOk result (λ text. text.items ≡ orders_answer rows.now) }
{
    let mut text = Vec::new(alloc);
    for row in rows {
        put_order_line(alloc, &mut text, &row.order, &row.line)?;
    }
    put_end(alloc, &mut text, rows.len())?;
    Ok(text)
}

// Lines of positions, and how many they are.
fn positions_text(alloc: Global, rows: &[PositionRow]) -> Result<Vec<u8>, NoMemory>
    ensures { IfOk result (λ text. text.items ≡ positions_answer rows.now) }
{
    let mut text = Vec::new(alloc);
    for row in rows {
        let PositionKey { account, symbol } = &row.position;
        put_position_line(alloc, &mut text, account, symbol, &row.line)?;
    }
    put_end(alloc, &mut text, rows.len())?;
    Ok(text)
}

/// The line of a fault, with the place of a bad word.
pub(crate) fn bad_text(alloc: Global, fault: LineFault) -> Result<Vec<u8>, NoMemory>
    ensures { IfOk result (λ text. text.items ≡ bad_text fault) }
{
    let mut text = Vec::new(alloc);
    text.extend_from_slice(b"bad")?;
    put_number(alloc, &mut text, u64::from(fault.number()))?;
    if let LineFault::BadValue(place) = fault {
        put_number(alloc, &mut text, place as u64)?;
    }
    text.push(b'\n')?;
    Ok(text)
}

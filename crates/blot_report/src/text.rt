//! The text of a report.
ghost use Rattle.std.specs.Prelude.{◌≡◌, ◌++◌, IfOk, OnOk};
ghost use Rattle.blot_report.specs.Text.{word, sign_text, order_amounts, order_text, position_amounts, position_text, first_text, last_text, order_lines_text, position_lines_text, report_text};

use crate::{DayLines, OrderRow, PositionRow};
use blot_time::Day;
use blot_types::{OrderKey, OrderLine, PositionKey, PositionLine, Sign, Text64};
use std::alloc::{AllocError as NoMemory, Global};

/// The text of a report: its day, the lines of the orders and those of the positions, and how many these are. An
/// error is out of memory.
pub fn report_text(alloc: Global, lines: &DayLines) -> Result<Vec<u8>, NoMemory>
    ensures { IfOk result (λ text. text.items ≡ report_text lines.now) }
{
    let mut text = Vec::new(alloc);
    let mut numbers = String::new(alloc);
    put_first_line(&mut text, lines.day)?;
    put_order_lines(&mut numbers, &mut text, lines.orders.as_slice())?;
    put_position_lines(&mut numbers, &mut text, lines.positions.as_slice())?;
    put_end_line(&mut numbers, &mut text, lines)?;
    Ok(text)
}

/// Puts the line of an order after a text. An error is out of memory, and what the text has then isn't said.
pub fn put_order_line(
    alloc: Global,
    text: &mut Vec<u8>,
    order: &OrderKey,
    line: &OrderLine,
) -> Result<(), NoMemory>
    ensures { OnOk result (text.new.items ≡ text.old.items ++ order_text order.now line.now) }
{
    put_order(&mut String::new(alloc), text, order, line)
}

/// Puts the line of a position after a text. An error is out of memory, and what the text has then isn't said.
pub fn put_position_line(
    alloc: Global,
    text: &mut Vec<u8>,
    account: &Text64,
    symbol: &Text64,
    line: &PositionLine,
) -> Result<(), NoMemory>
    ensures { OnOk result (text.new.items ≡ text.old.items ++ position_text account.now symbol.now line.now) }
{
    put_position(&mut String::new(alloc), text, account, symbol, line)
}

/// The letter of a sign: `B` for a buy, `S` for a sell.
pub fn sign_word(sign: Sign) -> &'static [u8]
    ensures { result.now ≡ sign_text sign }
{
    match sign {
        Sign::Buy => b"B",
        Sign::Sell => b"S",
    }
}

// Puts the lines of orders after a text. The numbers of each line are written into one string, which is emptied first.
fn put_order_lines(
    numbers: &mut String,
    text: &mut Vec<u8>,
    rows: &[OrderRow],
) -> Result<(), NoMemory>
    ensures { OnOk result (text.new.items ≡ text.old.items ++ order_lines_text rows.now) }
{
    for row in rows {
        put_order(numbers, text, &row.order, &row.line)?;
    }
    Ok(())
}

// Puts the lines of positions after a text.
fn put_position_lines(
    numbers: &mut String,
    text: &mut Vec<u8>,
    rows: &[PositionRow],
) -> Result<(), NoMemory>
    ensures { OnOk result (text.new.items ≡ text.old.items ++ position_lines_text rows.now) }
{
    for row in rows {
        let PositionKey { account, symbol } = &row.position;
        put_position(numbers, text, account, symbol, &row.line)?;
    }
    Ok(())
}

// Puts the line of an order after a text.
fn put_order(
    numbers: &mut String,
    text: &mut Vec<u8>,
    order: &OrderKey,
    line: &OrderLine,
) -> Result<(), NoMemory>
    ensures { OnOk result (text.new.items ≡ text.old.items ++ order_text order.now line.now) }
{
    put_word_and_tab(text, b"order")?;
    put_word_and_tab(text, order.peer.bytes())?;
    put_word_and_tab(text, order.id.bytes())?;
    put_word_and_tab(text, line.symbol.bytes())?;
    put_word_and_tab(text, sign_word(line.sign))?;
    put_order_amounts(numbers, text, line)
}

// Puts the line of a position after a text.
fn put_position(
    numbers: &mut String,
    text: &mut Vec<u8>,
    account: &Text64,
    symbol: &Text64,
    line: &PositionLine,
) -> Result<(), NoMemory>
    ensures { OnOk result (text.new.items ≡ text.old.items ++ position_text account.now symbol.now line.now) }
{
    put_word_and_tab(text, b"position")?;
    put_word_and_tab(text, account.bytes())?;
    put_word_and_tab(text, symbol.bytes())?;
    put_position_amounts(numbers, text, line)
}

// Puts the first line of a report after a text.
fn put_first_line(text: &mut Vec<u8>, day: Day) -> Result<(), NoMemory>
    ensures { OnOk result (text.new.items ≡ text.old.items ++ first_text day) }
{
    put_word_and_tab(text, b"report")?;
    text.extend_from_slice(&day.write())?;
    text.push(b'\n')?;
    Ok(())
}

// Puts the last line of a report after a text.
fn put_end_line(numbers: &mut String, text: &mut Vec<u8>, lines: &DayLines) -> Result<(), NoMemory>
    ensures { OnOk result (text.new.items ≡ text.old.items ++ last_text lines.now) }
{
    let count = lines.orders.as_slice().len() + lines.positions.as_slice().len();
    put_word_and_tab(text, b"end")?;
    numbers.clear();
    write!(numbers, "{count}\n")?;
    text.extend_from_slice(numbers.as_bytes())?;
    Ok(())
}

// Puts a word and a tab after a text.
fn put_word_and_tab(text: &mut Vec<u8>, bytes: &[u8]) -> Result<(), NoMemory>
    ensures { OnOk result (text.new.items ≡ text.old.items ++ word bytes.now) }
{
    text.extend_from_slice(bytes)?;
    text.push(b'\t')?;
    Ok(())
}

// Puts the amounts of an order's line after a text, and ends the line.
fn put_order_amounts(
    numbers: &mut String,
    text: &mut Vec<u8>,
    line: &OrderLine,
) -> Result<(), NoMemory>
    ensures { OnOk result (text.new.items ≡ text.old.items ++ order_amounts line.now) }
{
    let OrderLine {
        cum,
        leaves,
        value,
        ..
    } = *line;
    numbers.clear();
    write!(numbers, "{cum}\t{leaves}\t{value}\n")?;
    text.extend_from_slice(numbers.as_bytes())?;
    Ok(())
}

// Puts the amounts of a position's line after a text, and ends the line.
fn put_position_amounts(
    numbers: &mut String,
    text: &mut Vec<u8>,
    line: &PositionLine,
) -> Result<(), NoMemory>
    ensures { OnOk result (text.new.items ≡ text.old.items ++ position_amounts line.now) }
{
    let PositionLine { qty, value } = *line;
    numbers.clear();
    write!(numbers, "{qty}\t{value}\n")?;
    text.extend_from_slice(numbers.as_bytes())?;
    Ok(())
}

//! The line that tells an entry.
ghost use Rattle.std.specs.Prelude.{◌≡◌, ◌++◌, OnOk, flat_map};
ghost use Rattle.blot_types.specs.declared.command.Command.TheVariants as commands;
ghost use Rattle.blot_console.specs.Replies.{word_text};
ghost use Rattle.blot_console.specs.Entries.{account_word, alloc_text, amounts_text, command_text, entry_text, fill_text, line_text, lists_text, terms_text, withdraw_text};

use crate::telling::{put_exec, put_number, put_word};
use blot_report::sign_word;
use blot_types::{
    AllocCancel, AllocKey, AllocNew, AllocReplace, Bust, Command, Correct, Entry, ExecKey, Fill,
    Line, Terms, Text64, Trade,
};
use std::alloc::{AllocError as NoMemory, Global};

/// Puts the line of an entry after a text. An error is out of memory, and what the text has then isn't said.
pub(crate) fn put_entry(alloc: Global, text: &mut Vec<u8>, entry: &Entry) -> Result<(), NoMemory>
    ensures { OnOk result (text.new.items ≡ text.old.items ++ entry_text entry.now) }
{
    let number = entry.number;
    match &entry.command {
        Command::Trade(trade) => put_trade(alloc, text, number, trade),
        Command::Correct(correct) => put_correct(alloc, text, number, correct),
        Command::Bust(bust) => put_bust(alloc, text, number, bust),
        Command::AllocNew(new) => put_alloc_new(alloc, text, number, new),
        Command::AllocReplace(replace) => put_alloc_replace(alloc, text, number, replace),
        Command::AllocCancel(cancel) => put_alloc_cancel(alloc, text, number, cancel),
        Command::Withdraw(withdrawn) => put_withdraw(alloc, text, number, *withdrawn),
    }
}

/// Puts the line of a withdrawal after a text: the number of its step, and the number that it took out.
pub(crate) fn put_withdraw(
    alloc: Global,
    text: &mut Vec<u8>,
    number: u64,
    withdrawn: u64,
) -> Result<(), NoMemory>
    ensures { OnOk result (text.new.items ≡ text.old.items ++ withdraw_text number withdrawn) }
{
    text.extend_from_slice(b"withdraw")?;
    put_number(alloc, text, number)?;
    put_number(alloc, text, withdrawn)?;
    text.push(b'\n')?;
    Ok(())
}

// Puts the line of a Trade after a text.
fn put_trade(alloc: Global, text: &mut Vec<u8>, number: u64, trade: &Trade) -> Result<(), NoMemory>
    ensures { OnOk result (text.new.items ≡ text.old.items ++ command_text number (commands.Trade trade.now)) }
{
    text.extend_from_slice(b"trade")?;
    put_number(alloc, text, number)?;
    put_exec(text, &trade.key)?;
    put_fill(alloc, text, &trade.fill)?;
    text.push(b'\n')?;
    Ok(())
}

// Puts the line of a Correct after a text.
fn put_correct(
    alloc: Global,
    text: &mut Vec<u8>,
    number: u64,
    correct: &Correct,
) -> Result<(), NoMemory>
    ensures { OnOk result (text.new.items ≡ text.old.items ++ command_text number (commands.Correct correct.now)) }
{
    text.extend_from_slice(b"correct")?;
    put_number(alloc, text, number)?;
    put_exec(text, &correct.key)?;
    put_word(text, correct.reference.id.bytes())?;
    put_fill(alloc, text, &correct.fill)?;
    text.push(b'\n')?;
    Ok(())
}

// Puts the line of a Bust after a text.
fn put_bust(alloc: Global, text: &mut Vec<u8>, number: u64, bust: &Bust) -> Result<(), NoMemory>
    ensures { OnOk result (text.new.items ≡ text.old.items ++ command_text number (commands.Bust bust.now)) }
{
    text.extend_from_slice(b"bust")?;
    put_number(alloc, text, number)?;
    put_exec(text, &bust.key)?;
    put_word(text, bust.reference.id.bytes())?;
    text.push(b'\n')?;
    Ok(())
}

// Puts the line of an AllocNew after a text.
fn put_alloc_new(
    alloc: Global,
    text: &mut Vec<u8>,
    number: u64,
    new: &AllocNew,
) -> Result<(), NoMemory>
    ensures { OnOk result (text.new.items ≡ text.old.items ++ command_text number (commands.AllocNew new.now)) }
{
    text.extend_from_slice(b"allocnew")?;
    put_number(alloc, text, number)?;
    put_alloc(text, &new.key)?;
    put_terms(alloc, text, &new.terms)?;
    text.push(b'\n')?;
    Ok(())
}

// Puts the line of an AllocReplace after a text.
fn put_alloc_replace(
    alloc: Global,
    text: &mut Vec<u8>,
    number: u64,
    replace: &AllocReplace,
) -> Result<(), NoMemory>
    ensures { OnOk result (text.new.items ≡ text.old.items ++ command_text number (commands.AllocReplace replace.now)) }
{
    text.extend_from_slice(b"allocreplace")?;
    put_number(alloc, text, number)?;
    put_alloc(text, &replace.key)?;
    put_word(text, replace.reference.id.bytes())?;
    put_terms(alloc, text, &replace.terms)?;
    text.push(b'\n')?;
    Ok(())
}

// Puts the line of an AllocCancel after a text.
fn put_alloc_cancel(
    alloc: Global,
    text: &mut Vec<u8>,
    number: u64,
    cancel: &AllocCancel,
) -> Result<(), NoMemory>
    ensures { OnOk result (text.new.items ≡ text.old.items ++ command_text number (commands.AllocCancel cancel.now)) }
{
    text.extend_from_slice(b"alloccancel")?;
    put_number(alloc, text, number)?;
    put_alloc(text, &cancel.key)?;
    put_word(text, cancel.reference.id.bytes())?;
    text.push(b'\n')?;
    Ok(())
}

// Puts a fill after a text: order, account, symbol and sign, then its amounts.
fn put_fill(alloc: Global, text: &mut Vec<u8>, fill: &Fill) -> Result<(), NoMemory>
    ensures { OnOk result (text.new.items ≡ text.old.items ++ fill_text fill.now) }
{
    put_word(text, fill.order.id.bytes())?;
    put_word(text, account_word(&fill.account))?;
    put_word(text, fill.symbol.bytes())?;
    put_word(text, sign_word(fill.sign))?;
    put_amounts(alloc, text, fill)
}

// Puts the quantity, the price, the day and the size of a fill after a text.
fn put_amounts(alloc: Global, text: &mut Vec<u8>, fill: &Fill) -> Result<(), NoMemory>
    ensures { OnOk result (text.new.items ≡ text.old.items ++ amounts_text fill.now) }
{
    let Fill {
        qty,
        price,
        size,
        ..
    } = *fill;
    let words = format!(in alloc; "\t{qty}\t{price}")?;
    text.extend_from_slice(words.as_bytes())?;
    put_word(text, &fill.day.write())?;
    let word = format!(in alloc; "\t{size}")?;
    text.extend_from_slice(word.as_bytes())?;
    Ok(())
}

// Puts what an allocation books after a text.
fn put_terms(alloc: Global, text: &mut Vec<u8>, terms: &Terms) -> Result<(), NoMemory>
    ensures { OnOk result (text.new.items ≡ text.old.items ++ terms_text terms.now) }
{
    put_word(text, terms.symbol.bytes())?;
    put_word(text, sign_word(terms.sign))?;
    put_word(text, &terms.day.write())?;
    let block = terms.block;
    let word = format!(in alloc; "\t{block}")?;
    text.extend_from_slice(word.as_bytes())?;
    put_lists(alloc, text, terms)
}

// Puts the executions and the lines of an allocation after a text, each list behind its count.
fn put_lists(alloc: Global, text: &mut Vec<u8>, terms: &Terms) -> Result<(), NoMemory>
    ensures { OnOk result (text.new.items ≡ text.old.items ++ lists_text terms.now) }
{
    let execs = terms.execs.as_slice();
    put_number(alloc, text, execs.len() as u64)?;
    put_exec_ids(text, execs)?;
    let lines = terms.lines.as_slice();
    put_number(alloc, text, lines.len() as u64)?;
    put_lines(alloc, text, lines)
}

// Puts the ExecIDs of executions after a text.
fn put_exec_ids(text: &mut Vec<u8>, execs: &[ExecKey]) -> Result<(), NoMemory>
    ensures { OnOk result (text.new.items ≡ text.old.items ++ flat_map (λ key. word_text key.id) execs.now) }
{
    for key in execs {
        put_word(text, key.id.bytes())?;
    }
    Ok(())
}

// Puts the lines of an allocation after a text.
fn put_lines(alloc: Global, text: &mut Vec<u8>, lines: &[Line]) -> Result<(), NoMemory>
    ensures { OnOk result (text.new.items ≡ text.old.items ++ flat_map line_text lines.now) }
{
    for line in lines {
        put_line(alloc, text, line)?;
    }
    Ok(())
}

// Puts a line of an allocation after a text.
fn put_line(alloc: Global, text: &mut Vec<u8>, line: &Line) -> Result<(), NoMemory>
    ensures { OnOk result (text.new.items ≡ text.old.items ++ line_text line.now) }
{
    let Line { qty, price, .. } = *line;
    put_word(text, line.account.bytes())?;
    let words = format!(in alloc; "\t{qty}\t{price}")?;
    text.extend_from_slice(words.as_bytes())?;
    Ok(())
}

/// Puts an allocation after a text: its peer and its AllocID.
pub(crate) fn put_alloc(text: &mut Vec<u8>, key: &AllocKey) -> Result<(), NoMemory>
    ensures { OnOk result (text.new.items ≡ text.old.items ++ alloc_text key.now) }
{
    put_word(text, key.peer.bytes())?;
    put_word(text, key.id.bytes())
}

// The account of a fill, `*` where it has none.
fn account_word(account: &Option<Text64>) -> &[u8]
    ensures { result.now ≡ account_word account.now }
{
    match account {
        None => b"*",
        Some(account) => account.bytes(),
    }
}

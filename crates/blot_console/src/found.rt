//! How what was found to a question is told.
ghost use Rattle.std.specs.Prelude.{◌≡◌, ◌++◌, IfOk, OnOk, length, slice_get, flat_map};
ghost use Rattle.blot_report.specs.Text.{end_text};
ghost use Rattle.blot_console.specs.Replies.{exec_text, word_text};
ghost use Rattle.blot_console.specs.Entries.{alloc_text, entry_text};
ghost use Rattle.blot_console.specs.Founds.{allocation_text, execution_lines, execution_text, found_by_text, found_text, key_text, line_by, lines_by, needs_text, optional_line, optional_lines, refusal_text, state_line, step_text};

use crate::entries::{put_alloc, put_entry, put_withdraw};
use crate::telling::{
    number_line, put_exec, put_number, put_values, put_word, refused_text, word_line,
};
use blot_command::{AllocationAnswer, ExecutionAnswer};
use blot_desk::{CommandKey, Found, RefusalRow, StepRow};
use blot_types::{AllocKey, Entry, ExecKey, Refused, Text64};
use std::alloc::{AllocError as NoMemory, Global};

/// The lines of what was found. An error is out of memory.
#[tactic(auto, using(crate::proofs::MakerLemmas::by_nobody))]
pub(crate) fn found_text(alloc: Global, found: &Found) -> Result<Vec<u8>, NoMemory>
    ensures { IfOk result (λ text. text.items ≡ found_text found.now) }
{
    found_by_text(alloc, found, &[])
}

/// The lines of what was found, and who made each row, as the last word of its line. An error is out of memory.
pub(crate) fn found_by_text(
    alloc: Global,
    found: &Found,
    makers: &[Text64],
) -> Result<Vec<u8>, NoMemory>
    ensures { IfOk result (λ text. text.items ≡ found_by_text found.now makers.now) }
{
    match found {
        Found::Entry(None) | Found::Execution(_, None) | Found::Allocation(_, None) => {
            word_line(alloc, b"none")
        }
        Found::Entry(Some(entry)) => entry_answer(alloc, entry),
        Found::Execution(key, Some(answer)) => execution_text(alloc, key, answer),
        Found::Allocation(key, Some(answer)) => allocation_text(alloc, key, answer),
        Found::Needs(reason) => needs_text(alloc, reason),
        Found::Steps(rows) => steps_text(alloc, rows.as_slice(), makers),
        Found::Refusals(rows) => refusals_text(alloc, rows.as_slice(), makers),
    }
}

// The line of an entry.
fn entry_answer(alloc: Global, entry: &Entry) -> Result<Vec<u8>, NoMemory>
    ensures { IfOk result (λ text. text.items ≡ entry_text entry.now) }
{
    let mut text = Vec::new(alloc);
    put_entry(alloc, &mut text, entry)?;
    Ok(text)
}

// What is told of an execution.
fn execution_text(
    alloc: Global,
    key: &ExecKey,
    answer: &ExecutionAnswer,
) -> Result<Vec<u8>, NoMemory>
    ensures { IfOk result (λ text. text.items ≡ execution_text key.now answer.now) }
{
    let mut text = Vec::new(alloc);
    text.extend_from_slice(b"execution")?;
    put_exec(&mut text, key)?;
    text.push(b'\n')?;
    put_entries(alloc, &mut text, answer.entries.as_slice())?;
    put_state(alloc, &mut text, answer)?;
    put_optional(alloc, &mut text, b"allocated", answer.allocation)?;
    put_end(alloc, &mut text, lines_of(answer))?;
    Ok(text)
}

// How many lines stand between the first and the last of what is told of an execution.
fn lines_of(answer: &ExecutionAnswer) -> usize
    ensures { result ≡ execution_lines answer.now }
{
    let state = match answer.bust {
        Some(_) => 1,
        None => optional_lines(answer.version),
    };
    answer.entries.as_slice().len() + state + optional_lines(answer.allocation)
}

// The line of the Bust that ended a chain, or of its last version.
fn put_state(alloc: Global, text: &mut Vec<u8>, answer: &ExecutionAnswer) -> Result<(), NoMemory>
    ensures { OnOk result (text.new.items ≡ text.old.items ++ state_line answer.now) }
{
    match answer.bust {
        Some(bust) => put_optional(alloc, text, b"busted", Some(bust)),
        None => put_optional(alloc, text, b"survivor", answer.version),
    }
}

// What is told of an allocation.
fn allocation_text(
    alloc: Global,
    key: &AllocKey,
    answer: &AllocationAnswer,
) -> Result<Vec<u8>, NoMemory>
    ensures { IfOk result (λ text. text.items ≡ allocation_text key.now answer.now) }
{
    let mut text = Vec::new(alloc);
    text.extend_from_slice(b"allocation")?;
    put_alloc(&mut text, key)?;
    text.push(b'\n')?;
    put_entry(alloc, &mut text, &answer.entry)?;
    put_optional(alloc, &mut text, b"ended", answer.ended)?;
    put_end(alloc, &mut text, 1 + optional_lines(answer.ended))?;
    Ok(text)
}

// What a withdrawal would be refused for.
fn needs_text(alloc: Global, reason: &Option<Refused>) -> Result<Vec<u8>, NoMemory>
    ensures { IfOk result (λ text. text.items ≡ needs_text reason.now) }
{
    match reason {
        None => word_line(alloc, b"free"),
        Some(Refused::Needed(number)) => number_line(alloc, b"needed", *number),
        Some(other) => refused_text(alloc, other),
    }
}

// Done steps, each with its maker, and how many they are.
fn steps_text(alloc: Global, rows: &[StepRow], makers: &[Text64]) -> Result<Vec<u8>, NoMemory>
    ensures { IfOk result (λ text. text.items ≡ lines_by step_text rows.now makers.now ++ end_text (length rows.now)) }
{
    let mut text = Vec::new(alloc);
    for (place, row) in rows.iter().enumerate() {
        put_step_by(alloc, &mut text, row, maker_at(makers, place))?;
    }
    put_end(alloc, &mut text, rows.len())?;
    Ok(text)
}

// The line of a done step, with its maker.
#[tactic(auto, using(crate::proofs::MakerLemmas::step_by))]
fn put_step_by(
    alloc: Global,
    text: &mut Vec<u8>,
    row: &StepRow,
    maker: Option<Text64>,
) -> Result<(), NoMemory>
    ensures { OnOk result (text.new.items ≡ text.old.items ++ line_by (step_text row.now) maker) }
{
    put_step(alloc, text, row)?;
    put_maker(text, maker)
}

// The line of a done step.
fn put_step(alloc: Global, text: &mut Vec<u8>, row: &StepRow) -> Result<(), NoMemory>
    ensures { OnOk result (text.new.items ≡ text.old.items ++ step_text row.now) }
{
    match row {
        StepRow::Entry(entry) => put_entry(alloc, text, entry),
        StepRow::Withdraw(number, withdrawn) => put_withdraw(alloc, text, *number, *withdrawn),
        StepRow::Withdrawn(number) => put_optional(alloc, text, b"withdrawn", Some(*number)),
    }
}

// Refused commands, each with its maker, and how many they are.
fn refusals_text(alloc: Global, rows: &[RefusalRow], makers: &[Text64]) -> Result<Vec<u8>, NoMemory>
    ensures { IfOk result (λ text. text.items ≡ lines_by refusal_text rows.now makers.now ++ end_text (length rows.now)) }
{
    let mut text = Vec::new(alloc);
    for (place, row) in rows.iter().enumerate() {
        put_refusal_by(alloc, &mut text, row, maker_at(makers, place))?;
    }
    put_end(alloc, &mut text, rows.len())?;
    Ok(text)
}

// The line of a refused command, with its maker.
#[tactic(auto, using(crate::proofs::MakerLemmas::refusal_by))]
fn put_refusal_by(
    alloc: Global,
    text: &mut Vec<u8>,
    row: &RefusalRow,
    maker: Option<Text64>,
) -> Result<(), NoMemory>
    ensures { OnOk result (text.new.items ≡ text.old.items ++ line_by (refusal_text row.now) maker) }
{
    put_refusal(alloc, text, row)?;
    put_maker(text, maker)
}

// The line of a refused command.
fn put_refusal(alloc: Global, text: &mut Vec<u8>, row: &RefusalRow) -> Result<(), NoMemory>
    ensures { OnOk result (text.new.items ≡ text.old.items ++ refusal_text row.now) }
{
    text.extend_from_slice(b"refusal")?;
    put_number(alloc, text, row.place)?;
    put_key(alloc, text, &row.command)?;
    put_number(alloc, text, u64::from(row.reason.number()))?;
    put_word(text, row.reason.name())?;
    put_values(alloc, text, row.reason)?;
    text.push(b'\n')?;
    Ok(())
}

// The maker at a place, if there is one.
fn maker_at(makers: &[Text64], place: usize) -> Option<Text64>
    ensures { result ≡ slice_get makers.now place }
{
    makers.get(place).copied()
}

// Puts a maker, if there is one, as one word more at the end of the last line of a text.
fn put_maker(text: &mut Vec<u8>, maker: Option<Text64>) -> Result<(), NoMemory>
    ensures { OnOk result (text.new.items ≡ line_by text.old.items maker) }
{
    let Some(maker) = maker else {
        return Ok(());
    };
    text.pop();
    put_word(text, maker.bytes())?;
    text.push(b'\n')?;
    Ok(())
}

// A command's kind and its own key.
fn put_key(alloc: Global, text: &mut Vec<u8>, key: &CommandKey) -> Result<(), NoMemory>
    ensures { OnOk result (text.new.items ≡ text.old.items ++ key_text key.now) }
{
    match key {
        CommandKey::Trade(key) => put_exec_key(text, b"trade", key),
        CommandKey::Correct(key) => put_exec_key(text, b"correct", key),
        CommandKey::Bust(key) => put_exec_key(text, b"bust", key),
        CommandKey::AllocNew(key) => put_alloc_key(text, b"allocnew", key),
        CommandKey::AllocReplace(key) => put_alloc_key(text, b"allocreplace", key),
        CommandKey::AllocCancel(key) => put_alloc_key(text, b"alloccancel", key),
        CommandKey::Withdraw(number) => {
            put_word(text, b"withdraw")?;
            put_number(alloc, text, *number)
        }
    }
}

// A kind and the key of an execution.
fn put_exec_key(text: &mut Vec<u8>, kind: &[u8], key: &ExecKey) -> Result<(), NoMemory>
    ensures { OnOk result (text.new.items ≡ text.old.items ++ word_text kind.now ++ exec_text key.now) }
{
    put_word(text, kind)?;
    put_exec(text, key)
}

// A kind and the key of an allocation.
fn put_alloc_key(text: &mut Vec<u8>, kind: &[u8], key: &AllocKey) -> Result<(), NoMemory>
    ensures { OnOk result (text.new.items ≡ text.old.items ++ word_text kind.now ++ alloc_text key.now) }
{
    put_word(text, kind)?;
    put_alloc(text, key)
}

// The lines of entries.
fn put_entries(alloc: Global, text: &mut Vec<u8>, entries: &[Entry]) -> Result<(), NoMemory>
    ensures { OnOk result (text.new.items ≡ text.old.items ++ flat_map entry_text entries.now) }
{
    for entry in entries {
        put_entry(alloc, text, entry)?;
    }
    Ok(())
}

// A line of a word and a number, if there is one.
fn put_optional(
    alloc: Global,
    text: &mut Vec<u8>,
    name: &[u8],
    number: Option<u64>,
) -> Result<(), NoMemory>
    ensures { OnOk result (text.new.items ≡ text.old.items ++ optional_line name.now number) }
{
    let Some(number) = number else {
        return Ok(());
    };
    text.extend_from_slice(name)?;
    put_number(alloc, text, number)?;
    text.push(b'\n')?;
    Ok(())
}

// How many lines that is.
fn optional_lines(number: Option<u64>) -> usize
    ensures { result ≡ optional_lines number }
{
    match number {
        None => 0,
        Some(_) => 1,
    }
}

/// Puts the last line after a text: how many lines stand before it.
pub(crate) fn put_end(alloc: Global, text: &mut Vec<u8>, lines: usize) -> Result<(), NoMemory>
    ensures { OnOk result (text.new.items ≡ text.old.items ++ end_text lines) }
{
    text.extend_from_slice(b"end")?;
    put_number(alloc, text, lines as u64)?;
    text.push(b'\n')?;
    Ok(())
}

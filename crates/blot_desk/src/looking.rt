//! What each question is answered.
ghost use Rattle.std.specs.Prelude.{◌≡◌, ◌++◌, [], IfOk, OnOk, find};
ghost use Rattle.std.specs.List.{cons_option};
ghost use Rattle.blot_command.specs.Book.{has_number};
ghost use Rattle.blot_desk.specs.Desk.{desk_book};
ghost use Rattle.blot_desk.specs.Questions.{key_of, newest_refusals, newest_steps, refusal_row, step_row};

use crate::question::{CommandKey, RefusalRow, StepRow};
use crate::{Event, Recorded, Reply};
use blot_command::{BoxedCommand, Inverse, Tables};
use blot_types::{Command, Entry};
use blot_undo::{Done, Steps};
use std::alloc::{AllocError as NoMemory, Global};

/// So many of the newest done steps, the newest first. An error is out of memory.
pub(crate) fn newest_steps(
    alloc: Global,
    steps: &Steps<BoxedCommand>,
    count: u16,
) -> Result<Vec<StepRow>, NoMemory>
    ensures { IfOk result (λ rows. rows.items ≡ newest_steps count (desk_book steps.now)) }
{
    let mut rows = Vec::new(alloc);
    for back in 0..count {
        let Some(step) = steps.done_before(usize::from(back)) else {
            return Ok(rows);
        };
        let row = step_row(alloc, steps.state(), step)?;
        rows.push(row)?;
    }
    Ok(rows)
}

// A done step of a book.
fn step_row(alloc: Global, tables: &Tables, step: &Done<Inverse>) -> Result<StepRow, NoMemory>
    ensures { IfOk result (λ row. row ≡ step_row tables.now.list step.now) }
{
    match &step.inverse {
        Inverse::Taken(entry) => Ok(StepRow::Withdraw(step.number, entry.as_entry().number)),
        Inverse::Number(number) => match tables.entry(*number) {
            Some(entry) => Ok(StepRow::Entry(entry.try_copy(alloc)?)),
            None => Ok(StepRow::Withdrawn(*number)),
        },
    }
}

/// The live entry of a number, copied. An error is out of memory.
pub(crate) fn entry(alloc: Global, tables: &Tables, number: u64) -> Result<Option<Entry>, NoMemory>
    ensures { IfOk result (λ entry. entry ≡ find (has_number number) tables.now.list) }
{
    match tables.entry(number) {
        None => Ok(None),
        Some(entry) => Ok(Some(entry.try_copy(alloc)?)),
    }
}

/// So many of the newest refused commands of a history, the newest first. It is walked back until they are found. An error is out of
/// memory.
pub(crate) fn newest_refusals(
    alloc: Global,
    history: &[Recorded],
    count: u16,
) -> Result<Vec<RefusalRow>, NoMemory>
    ensures { IfOk result (λ rows. rows.items ≡ newest_refusals count history.now) }
{
    let mut rows = Vec::new(alloc);
    let mut place = history.len();
    while place > 0 && rows.len() < usize::from(count) {
        put_refusal(&mut rows, place as u64, &history[place - 1])?;
        place -= 1;
    }
    Ok(rows)
}

// Puts an event at a place behind other rows, if it is a command that was refused.
fn put_refusal(rows: &mut Vec<RefusalRow>, place: u64, recorded: &Recorded) -> Result<(), NoMemory>
    ensures { OnOk result (rows.new.items ≡ rows.old.items ++ cons_option (refusal_row place recorded.now.event recorded.now.reply) []) }
{
    match (&recorded.event, recorded.reply) {
        (Event::Submit(command), Reply::Refused(reason)) => {
            let command: CommandKey = key_of(command);
            rows.push(RefusalRow {
                place,
                command,
                reason,
            })?;
            Ok(())
        }
        _ => Ok(()),
    }
}

// A command by its kind and its own key.
fn key_of(command: &Command) -> CommandKey
    ensures { result ≡ key_of command.now }
{
    match command {
        Command::Trade(trade) => CommandKey::Trade(trade.key),
        Command::Correct(correct) => CommandKey::Correct(correct.key),
        Command::Bust(bust) => CommandKey::Bust(bust.key),
        Command::AllocNew(new) => CommandKey::AllocNew(new.key),
        Command::AllocReplace(replace) => CommandKey::AllocReplace(replace.key),
        Command::AllocCancel(cancel) => CommandKey::AllocCancel(cancel.key),
        Command::Withdraw(number) => CommandKey::Withdraw(*number),
    }
}

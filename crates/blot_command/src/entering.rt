//! A command taken as the next entry of the book.
ghost use Rattle.std.specs.Prelude.{◌≡◌, ◌≤◌, IfOk, IfErr};
ghost use Rattle.blot_types.specs.declared.TheConstants.{EVENTS_MAX};
ghost use Rattle.blot_command.specs.Meanings.{entry_meaning};
ghost use Rattle.blot_command.specs.Undoable.{Refuses, IsRefusal, Adds, Undoes, TakesOut, AllBelow, numbers_in, IsStep};
ghost use Rattle.blot_command.specs.Withdrawing.{with_command};

use crate::{ApplyFault, BoxedEntry, Tables};
use blot_types::{Command, Entry};

/// Takes a command under a number above all numbers in the book as its next entry, and answers the number. Where the book refuses
/// it, or memory runs out, it comes back with the reason.
pub(crate) fn enter(
    tables: &mut Tables,
    command: Command,
    number: u64,
) -> Result<u64, (Command, ApplyFault)>
    requires above { AllBelow number (numbers_in entry_meaning tables.old) }
    requires within { number ≤ EVENTS_MAX }
    ensures accepted { IfOk result (λ inverse. IsStep entry_meaning tables.old.list command number inverse tables.new.list) }
    ensures kept { IfOk result (λ inverse. Adds entry_meaning number inverse tables.old tables.new) }
    ensures entered { IfOk result (λ inverse. tables.new ≡ with_command command number tables.old) }
    ensures refused { IfErr result (Refuses entry_meaning tables.old command tables.new) }
{
    match BoxedEntry::new(tables.alloc(), Entry { number, command }) {
        Ok(entry) => match enter_boxed(tables, entry) {
            Ok(number) => Ok(number),
            Err((back, fault)) => Err((back.into_entry().command, fault)),
        },
        Err(back) => {
            let fault = fault_without_memory(tables, &back.command);
            Err((back.command, fault))
        }
    }
}

// Why a command isn't taken for which there is no memory: that the book refuses it comes first.
fn fault_without_memory(tables: &Tables, command: &Command) -> ApplyFault
    ensures { IsRefusal entry_meaning tables.now command.now command.now result tables.now }
{
    match tables.refusal(command) {
        Some(refused) => ApplyFault::Refused(refused),
        None => ApplyFault::NoMemory,
    }
}

/// The same of a command that is an entry on the heap already, under its number. It stays where it is.
pub(crate) fn enter_boxed(
    tables: &mut Tables,
    entry: BoxedEntry,
) -> Result<u64, (BoxedEntry, ApplyFault)>
    requires above { AllBelow entry.number (numbers_in entry_meaning tables.old) }
    requires within { entry.number ≤ EVENTS_MAX }
    ensures accepted { IfOk result (λ inverse. IsStep entry_meaning tables.old.list entry.command entry.number inverse tables.new.list) }
    ensures kept { IfOk result (λ inverse. Adds entry_meaning entry.number inverse tables.old tables.new) }
    ensures entered { IfOk result (λ inverse. tables.new ≡ with_command entry.command entry.number tables.old) }
    ensures number { IfOk result (λ number. number ≡ entry.number) }
    ensures refused { IfErr result (λ refusal. Refuses entry_meaning tables.old entry.command tables.new (refusal.0.command, refusal.1)) }
{
    let inner = entry.as_entry();
    let number = inner.number;
    if let Some(refused) = tables.refusal(&inner.command) {
        return Err((entry, ApplyFault::Refused(refused)));
    }
    match tables.record(entry) {
        Ok(()) => Ok(number),
        Err(back) => Err((back, ApplyFault::NoMemory)),
    }
}

/// Takes the last entry back, by the number that it was taken under: its command.
pub(crate) fn leave(tables: &mut Tables, number: u64) -> Command
    requires { Undoes entry_meaning number tables.old }
    ensures list { tables.new.list ≡ entry_meaning.before tables.old.list number }
    ensures command { entry_meaning.command_of tables.old.list number ≡ Some result }
    ensures kept { TakesOut entry_meaning number tables.old tables.new }
    ensures left { tables.new.kept ≡ tables.old.kept }
{
    leave_boxed(tables, number).into_entry().command
}

/// The same, and the entry stays on the heap.
pub(crate) fn leave_boxed(tables: &mut Tables, number: u64) -> BoxedEntry
    requires { Undoes entry_meaning number tables.old }
    ensures list { tables.new.list ≡ entry_meaning.before tables.old.list number }
    ensures command { entry_meaning.command_of tables.old.list number ≡ Some result.command }
    ensures kept { TakesOut entry_meaning number tables.old tables.new }
    ensures left { tables.new.kept ≡ tables.old.kept }
{
    // The number says no more than that the entry is the last one.
    let _ = number;
    tables.take_last()
}

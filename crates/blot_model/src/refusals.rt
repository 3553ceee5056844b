//! Which commands a list refuses.
ghost use Rattle.std.specs.Prelude.{◌≡◌, IfOk};
ghost use Rattle.blot_types.specs.Allocations.{instructions_of};
ghost use Rattle.blot_types.specs.Legal.{entry_refusal, refusal_of, withdrawal_refusal, is_legal};

use crate::instructions::instructions;
use crate::rules::{
    busted_exec, dead_alloc, duplicate_alloc, duplicate_exec, exec_taken, instrument, is_live,
    never_entry, quantity, repeated_exec, unknown_alloc, unknown_exec,
};
use crate::withdrawal::first_failing;
use blot_types::{Command, Entry, Instruction, Refused};
use std::alloc::{AllocError as NoMemory, Global};

/// Why a list refuses a command, or none where it accepts it: the first rule that applies.
pub fn accepts(
    alloc: Global,
    list: &[Entry],
    command: &Command,
) -> Result<Option<Refused>, NoMemory>
    ensures { IfOk result (λ refused. refused ≡ refusal_of list.now command.now) }
{
    if let Some(number) = command.withdrawn() {
        return withdrawal_refusal(alloc, list, number);
    }
    entry_refusal(alloc, list, command)
}

// Why the entry of a number may not be taken out of a list: it isn't there, or the first entry that needs it.
fn withdrawal_refusal(
    alloc: Global,
    list: &[Entry],
    number: u64,
) -> Result<Option<Refused>, NoMemory>
    ensures { IfOk result (λ refused. refused ≡ withdrawal_refusal list.now number) }
{
    if !is_live(list, number) {
        return Ok(Some(Refused::NotLive(number)));
    }
    Ok(first_failing(alloc, list, number)?.map(Refused::Needed))
}

// Why a list refuses a command as its next entry.
fn entry_refusal(
    alloc: Global,
    list: &[Entry],
    command: &Command,
) -> Result<Option<Refused>, NoMemory>
    ensures { IfOk result (λ refused. refused ≡ entry_refusal list.now command.now) }
{
    let instructions = instructions(alloc, list)?;
    Ok(first_refusal(list, &instructions, command))
}

// Why a list with these instructions refuses a command as its next entry.
fn first_refusal(list: &[Entry], instructions: &[Instruction], command: &Command) -> Option<Refused>
    requires { instructions.now ≡ instructions_of list.now }
    ensures { result ≡ entry_refusal list.now command.now }
{
    never_entry(command)
        .or_else(|| duplicate_exec(list, command))
        .or_else(|| duplicate_alloc(list, instructions, command))
        .or_else(|| unknown_alloc(list, instructions, command))
        .or_else(|| dead_alloc(list, instructions, command))
        .or_else(|| unknown_exec(list, command))
        .or_else(|| busted_exec(list, command))
        .or_else(|| repeated_exec(list, command))
        .or_else(|| exec_taken(list, instructions, command))
        .or_else(|| instrument(list, command))
        .or_else(|| quantity(list, command))
}

/// Whether each entry of a list is accepted after those before it.
pub fn legal(alloc: Global, list: &[Entry]) -> Result<bool, NoMemory>
    ensures { IfOk result (λ legal. legal ≡ is_legal list.now) }
{
    for (index, entry) in list.iter().enumerate() {
        if entry_refusal(alloc, &list[..index], &entry.command)?.is_some() {
            return Ok(false);
        }
    }
    Ok(true)
}

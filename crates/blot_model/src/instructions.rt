//! The instructions on allocations.
ghost use Rattle.std.specs.Prelude.{◌≡◌, IfOk};
ghost use Rattle.blot_types.specs.Allocations.{roots_of_terms, instructions_of};
ghost use Rattle.blot_types.specs.Survivors.{links_of};
ghost use Rattle.blot_model.specs.Keyed.{instruction_after};

use crate::chains::root_of;
use blot_types::{AllocRole, Command, Entry, ExecKey, Instruction, Items, Terms};
use std::alloc::{AllocError as NoMemory, Global};

/// The instructions of a list, newest first.
pub(crate) fn instructions(alloc: Global, list: &[Entry]) -> Result<Vec<Instruction>, NoMemory>
    ensures { IfOk result (λ instructions. instructions.items ≡ instructions_of list.now) }
{
    let mut instructions = Vec::new(alloc);
    let mut rest = list;
    while let Some((entry, earlier)) = rest.split_last() {
        if let Some(instruction) = instruction(alloc, earlier, entry)? {
            instructions.push(instruction)?;
        }
        rest = earlier;
    }
    Ok(instructions)
}

// An entry as the allocations see it, where these entries stand before it.
fn instruction(
    alloc: Global,
    earlier: &[Entry],
    entry: &Entry,
) -> Result<Option<Instruction>, NoMemory>
    ensures { IfOk result (λ found. found ≡ instruction_after earlier.now entry.now) }
{
    let (key, role, roots) = match &entry.command {
        Command::AllocNew(new) => {
            (
                new.key,
                AllocRole::Allocates,
                roots_of_terms(alloc, earlier, &new.terms)?,
            )
        }
        Command::AllocReplace(replace) => (
            replace.key,
            AllocRole::Replaces(replace.reference),
            roots_of_terms(alloc, earlier, &replace.terms)?,
        ),
        Command::AllocCancel(cancel) => {
            let none = Items::new(Vec::new(alloc));
            (cancel.key, AllocRole::Cancels(cancel.reference), none)
        }
        Command::Trade(_) | Command::Correct(_) | Command::Bust(_) | Command::Withdraw(_) => {
            return Ok(None);
        }
    };
    Ok(Some(Instruction {
        number: entry.number,
        key,
        role,
        roots,
    }))
}

// The roots of the executions that terms list, where these entries stand before them.
fn roots_of_terms(
    alloc: Global,
    earlier: &[Entry],
    terms: &Terms,
) -> Result<Items<ExecKey>, NoMemory>
    ensures { IfOk result (λ roots. roots ≡ roots_of_terms (links_of earlier.now) terms.now) }
{
    let mut roots = Vec::new(alloc);
    for key in terms.execs.as_slice() {
        if let Some(root) = root_of(earlier, key) {
            roots.push(root)?;
        }
    }
    Ok(Items::new(roots))
}

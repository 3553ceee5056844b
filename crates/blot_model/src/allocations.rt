//! What is found among the instructions on allocations. They are read newest first.
ghost use Rattle.std.specs.Prelude.{◌≡◌, IfOk, IsTrue};
ghost use Rattle.blot_types.specs.Allocations.{named_roots};
ghost use Rattle.blot_types.specs.Instructions.{is_keyed, alloc_taker_in, is_allocation_in, ends, ended_in, is_live_in, names, holds_in, holds_beside, other_holder_in};
ghost use Rattle.blot_types.specs.Laws.{IsNamedOnce};
ghost use Rattle.blot_types.specs.Legal.{is_book};

use crate::instructions::instructions;
use blot_types::{AllocKey, AllocRole, Entry, ExecKey, Instruction, is_reference};
use std::alloc::{AllocError as NoMemory, Global};

/// The roots of the chains that the live allocations of a list name, those of the newest allocation first.
/// Each chain is named by at most one live allocation.
pub fn named_roots(alloc: Global, list: &[Entry]) -> Result<Vec<ExecKey>, NoMemory>
    ensures exact { IfOk result (λ roots. roots.items ≡ named_roots list.now) }
    ensures once { IsTrue (is_book list.now) → IsNamedOnce list.now }
{
    let instructions = instructions(alloc, list)?;
    let mut roots = Vec::new(alloc);
    for instruction in &instructions {
        if is_live(&instructions, instruction) {
            roots.extend_from_slice(instruction.roots.as_slice())?;
        }
    }
    Ok(roots)
}

/// The number of the instruction that takes up a key.
pub(crate) fn taker_of(instructions: &[Instruction], key: &AllocKey) -> Option<u64>
    ensures { result ≡ alloc_taker_in instructions.now key.now }
{
    instructions
        .iter()
        .find(|instruction| instruction.key == *key)
        .map(|instruction| instruction.number)
}

/// Whether there is an allocation of this key, live or ended.
pub(crate) fn is_allocation(instructions: &[Instruction], key: &AllocKey) -> bool
    ensures { result ≡ is_allocation_in instructions.now key.now }
{
    instructions.iter().any(|instruction| instruction.key == *key
        && instruction.role.brings_allocation())
}

/// The number of the instruction that ended the allocation of a key.
pub(crate) fn ended_by(instructions: &[Instruction], key: &AllocKey) -> Option<u64>
    ensures { result ≡ ended_in instructions.now key.now }
{
    instructions
        .iter()
        .find(|instruction| ends(key, &instruction.role))
        .map(|instruction| instruction.number)
}

/// The number of the live allocation that names the chain of a root, other than the one referred to.
pub(crate) fn other_holder_of(
    instructions: &[Instruction],
    reference: Option<AllocKey>,
    root: &ExecKey,
) -> Option<u64>
    ensures { result ≡ other_holder_in instructions.now reference root.now }
{
    instructions
        .iter()
        .find(|instruction| holds_beside(instructions, reference, root, instruction))
        .map(|instruction| instruction.number)
}

// Whether an instruction of this role ends the allocation of this key.
fn ends(key: &AllocKey, role: &AllocRole) -> bool
    ensures { result ≡ ends key.now role.now }
{
    match role {
        AllocRole::Allocates => false,
        AllocRole::Replaces(reference) | AllocRole::Cancels(reference) => reference == key,
    }
}

// Whether an instruction's allocation is live.
fn is_live(instructions: &[Instruction], instruction: &Instruction) -> bool
    ensures { result ≡ is_live_in instructions.now instruction.now }
{
    instruction.role.brings_allocation() && ended_by(instructions, &instruction.key).is_none()
}

// Whether an instruction lists an execution of the chain of this root.
fn names(root: &ExecKey, instruction: &Instruction) -> bool
    ensures { result ≡ names root.now instruction.now }
{
    instruction
        .roots
        .as_slice()
        .iter()
        .any(|named| named == root)
}

// Whether an instruction's allocation is live, names the chain of this root, and isn't the one referred to.
fn holds_beside(
    instructions: &[Instruction],
    reference: Option<AllocKey>,
    root: &ExecKey,
    instruction: &Instruction,
) -> bool
    ensures { result ≡ holds_beside instructions.now reference root.now instruction.now }
{
    is_live(instructions, instruction)
        && names(root, instruction)
        && !is_reference(reference, &instruction.key)
}

//! What an entry comes to in a book.
ghost use Rattle.std.specs.Prelude.{◌≡◌, map, IfOk};
ghost use Rattle.blot_types.specs.Instructions.{named_in};
ghost use Rattle.blot_types.specs.Keys.{is_among};
ghost use Rattle.blot_command.specs.Slots.{entries_in};
ghost use Rattle.blot_command.specs.Standings.{allocation_standing, execution_standing, standing_in};

use crate::slots::EntrySlot;
use blot_alloc::Allocs;
use blot_chain::Chains;
use blot_types::{AllocKey, Command, Entry, ExecKey};
use std::alloc::{AllocError as NoMemory, Global};

/// What an entry comes to in a book.
#[derive(Clone, Copy, Debug, PartialEq, Eq)]
pub enum Standing {
    /// An execution that stands, and whether a live allocation names its chain.
    Stands { is_named: bool },
    /// An allocation that is live.
    Live,
    /// Neither.
    Neither,
}

/// What the entries that are there come to, one after the other. An error is out of memory.
pub(crate) fn standings_in(
    alloc: Global,
    slots: &[EntrySlot],
    chains: &Chains,
    allocs: &Allocs,
) -> Result<Vec<Standing>, NoMemory>
    ensures { IfOk result (λ standings. standings.items ≡ map (standing_in chains.now.list allocs.now.list) (entries_in slots.now)) }
{
    let mut standings = Vec::with_capacity(alloc, slots.len())?;
    let mut near = 0;
    for slot in slots {
        if let Some(entry) = slot.entry() {
            standings.push(standing_in(chains, allocs, entry, near))?;
        }
        near = behind(slot, near);
    }
    Ok(standings)
}

// Where the next key of an execution has its cell among those of the chains, if none was taken back. An entry that was taken out of its
// slot was most likely an execution's.
fn behind(slot: &EntrySlot, near: usize) -> usize {
    match slot.entry() {
        Some(entry) if entry.command.alloc_key().is_some() => near,
        _ => near.wrapping_add(1),
    }
}

// What an entry comes to, as the chains and the allocations tell it.
fn standing_in(chains: &Chains, allocs: &Allocs, entry: &Entry, near: usize) -> Standing
    ensures { result ≡ standing_in chains.now.list allocs.now.list entry.now }
{
    match &entry.command {
        Command::Trade(trade) => execution_standing(chains, allocs, entry.number, &trade.key, near),
        Command::Correct(correct) => {
            execution_standing(chains, allocs, entry.number, &correct.key, near)
        }
        Command::AllocNew(new) => allocation_standing(allocs, &new.key),
        Command::AllocReplace(replace) => allocation_standing(allocs, &replace.key),
        Command::Bust(_) | Command::AllocCancel(_) | Command::Withdraw(_) => Standing::Neither,
    }
}

// An execution of a number and a key stands, and its chain is named or isn't; or it doesn't stand.
fn execution_standing(
    chains: &Chains,
    allocs: &Allocs,
    number: u64,
    key: &ExecKey,
    near: usize,
) -> Standing
    ensures { result ≡ execution_standing chains.now.list allocs.now.list number key.now }
{
    match chains.standing_root(number, key, near) {
        Some(root) => Standing::Stands {
            is_named: is_named(allocs, &root),
        },
        None => Standing::Neither,
    }
}

// Whether a live allocation names the chain of a root.
fn is_named(allocs: &Allocs, root: &ExecKey) -> bool
    ensures { result ≡ is_among (named_in allocs.now.list) root.now }
{
    allocs.holder_of(root).is_some()
}

// The allocation of a key is live, or was ended.
fn allocation_standing(allocs: &Allocs, key: &AllocKey) -> Standing
    ensures { result ≡ allocation_standing allocs.now.list key.now }
{
    if allocs.ended_by(key).is_none() {
        return Standing::Live;
    }
    Standing::Neither
}

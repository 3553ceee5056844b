//! What is told of an execution and of an allocation, by look-ups alone.
ghost use Rattle.std.specs.Prelude.{◌≡◌, ◌++◌, [], IfOk, IsTrue, OnOk};
ghost use Rattle.std.specs.List.{cons_option};
ghost use Rattle.blot_types.specs.Allocations.{instructions_of};
ghost use Rattle.blot_types.specs.Legal.{is_book};
ghost use Rattle.blot_types.specs.StandingVersion.{chain_by};
ghost use Rattle.blot_command.specs.Questions.{allocation_of, chain_entries, chain_keyed, entry_in, execution_of};
ghost use Rattle.blot_command.specs.Refusing.{HoldsBoth, HoldsChainsOf};
ghost use Rattle.blot_command.specs.Slots.{AreNumbered, entries_in};

use crate::rows::Rows;
use crate::slots::{EntrySlot, entry_numbered};
use blot_alloc::Allocs;
use blot_chain::Chains;
use blot_types::{AllocKey, Entry, ExecKey, Link, Role};
use std::alloc::{AllocError as NoMemory, Global};

/// What is told of an execution.
#[derive(Debug, PartialEq, Eq, Drop)]
pub struct ExecutionAnswer {
    /// The entries of its chain in list order: the Trade, the Corrects, and the Bust.
    pub entries: Rows<Entry>,
    /// The number of the Bust that ended the chain.
    pub bust: Option<u64>,
    /// The number of the chain's last version.
    pub version: Option<u64>,
    /// The number of the live allocation that names the chain.
    pub allocation: Option<u64>,
}

/// What is told of an allocation.
#[derive(Debug, PartialEq, Eq, Drop)]
pub struct AllocationAnswer {
    /// The entry of its key.
    pub entry: Entry,
    /// The number of the entry that replaced or cancelled it.
    pub ended: Option<u64>,
}

/// What is told of the execution of a key; none where no entry takes it up. An error is out of memory.
pub(crate) fn execution(
    alloc: Global,
    slots: &[EntrySlot],
    chains: &Chains,
    allocs: &Allocs,
    key: &ExecKey,
) -> Result<Option<ExecutionAnswer>, NoMemory>
    requires holds { HoldsBoth slots.now chains.now.list allocs.now.list }
    requires book { IsTrue (is_book (entries_in slots.now)) }
    ensures { IfOk result (λ answer. answer ≡ execution_of (entries_in slots.now) key.now) }
{
    let Some(root) = chain_keyed(slots, chains, key) else {
        return Ok(None);
    };
    let entries = chain_entries(alloc, slots, chains, &root)?;
    Ok(Some(ExecutionAnswer {
        entries: Rows::new(entries),
        bust: chains.bust_of(&root),
        version: chains.current(&root),
        allocation: allocs.holder_of(&root),
    }))
}

/// What is told of the allocation of a key; none where no entry takes it up. An error is out of memory.
pub(crate) fn allocation(
    alloc: Global,
    slots: &[EntrySlot],
    allocs: &Allocs,
    key: &AllocKey,
) -> Result<Option<AllocationAnswer>, NoMemory>
    requires numbered { AreNumbered slots.now }
    requires book { IsTrue (is_book (entries_in slots.now)) }
    requires instructions { allocs.now.list ≡ instructions_of (entries_in slots.now) }
    ensures { IfOk result (λ answer. answer ≡ allocation_of (entries_in slots.now) key.now) }
{
    let Some(number) = allocs.number_of(key) else {
        return Ok(None);
    };
    let Some(entry) = entry_numbered(slots, number) else {
        return Ok(None);
    };
    let entry = entry.try_copy(alloc)?;
    let ended = allocs.ended_by(key);
    Ok(Some(AllocationAnswer { entry, ended }))
}

// The root of the chain that the entry of a key begins, corrects or busts.
fn chain_keyed(slots: &[EntrySlot], chains: &Chains, key: &ExecKey) -> Option<ExecKey>
    requires holds { HoldsChainsOf slots.now chains.now.list }
    requires book { IsTrue (is_book (entries_in slots.now)) }
    ensures { result ≡ chain_keyed (entries_in slots.now) key.now }
{
    let Some(number) = chains.number_of(key) else {
        return None;
    };
    let Some(entry) = entry_numbered(slots, number) else {
        return None;
    };
    chain_by(chains, &entry.link())
}

// The entries of the chain of a root, in list order. They are found from the newest on: the Bust, and then each version.
fn chain_entries(
    alloc: Global,
    slots: &[EntrySlot],
    chains: &Chains,
    root: &ExecKey,
) -> Result<Vec<Entry>, NoMemory>
    requires holds { HoldsChainsOf slots.now chains.now.list }
    requires book { IsTrue (is_book (entries_in slots.now)) }
    ensures { IfOk result (λ entries. entries.items ≡ chain_entries (entries_in slots.now) root.now) }
{
    let mut entries = Vec::new(alloc);
    put_entry(alloc, &mut entries, slots, chains.bust_of(root))?;
    let mut next = chains.current(root);
    while let Some(number) = next {
        put_entry(alloc, &mut entries, slots, next)?;
        next = chains.version_before(root, number);
    }
    entries.reverse();
    Ok(entries)
}

// Puts a copy of the entry of a number behind some, if there is one.
fn put_entry(
    alloc: Global,
    entries: &mut Vec<Entry>,
    slots: &[EntrySlot],
    number: Option<u64>,
) -> Result<(), NoMemory>
    requires { AreNumbered slots.now }
    ensures { OnOk result (entries.new.items ≡ entries.old.items ++ cons_option (entry_in (entries_in slots.now) number) []) }
{
    let Some(number) = number else {
        return Ok(());
    };
    if let Some(entry) = entry_numbered(slots, number) {
        let copy = entry.try_copy(alloc)?;
        entries.push(copy)?;
    }
    Ok(())
}

/// The root of the chain that an entry's link begins, corrects or busts.
pub(crate) fn chain_by(chains: &Chains, link: &Option<Link>) -> Option<ExecKey>
    ensures { result ≡ chain_by chains.now.list link.now }
{
    match link {
        None => None,
        Some(link) => match link.role {
            Role::Begins => Some(link.key),
            Role::Corrects(reference) | Role::Busts(reference) => chains.root_of(&reference),
        },
    }
}

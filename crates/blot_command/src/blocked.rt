//! Which entry is the first that needs another: one function a kind, by look-ups alone.
ghost use Rattle.std.specs.Prelude.{◌≡◌, find, IsSome, IsTrue};
ghost use Rattle.blot_types.specs.Keys.{is_among};
ghost use Rattle.blot_types.specs.Legal.{is_book, least_needing};
ghost use Rattle.blot_command.specs.Blocking.{blocked_by, blocked_correct, changes_version, first_listing, lists_at, needed_until};
ghost use Rattle.blot_command.specs.Book.{has_number};
ghost use Rattle.blot_command.specs.Refusing.{HoldsBoth};
ghost use Rattle.blot_command.specs.Slots.{AreNumbered, entries_in};

use crate::slots::{EntrySlot, entry_numbered, fill_numbered};
use blot_alloc::Allocs;
use blot_chain::Chains;
use blot_types::{Command, Correct, EVENTS_MAX, ExecKey, Fill, lesser};

/// The number of the first entry that needs the one of a number, which is there. The slots, with the chains and the allocations
/// of their entries, are those of a book.
pub(crate) fn blocked(
    slots: &[EntrySlot],
    chains: &Chains,
    allocs: &Allocs,
    number: u64,
) -> Option<u64>
    requires holds { HoldsBoth slots.now chains.now.list allocs.now.list }
    requires book { IsTrue (is_book (entries_in slots.now)) }
    requires there { IsSome (find (has_number number) (entries_in slots.now)) }
    ensures { result ≡ least_needing (entries_in slots.now) number }
{
    let entry = entry_numbered(slots, number)?;
    blocked_by(slots, chains, allocs, number, &entry.command)
}

// The number of the first entry that needs the command of a number.
fn blocked_by(
    slots: &[EntrySlot],
    chains: &Chains,
    allocs: &Allocs,
    number: u64,
    command: &Command,
) -> Option<u64>
    requires { AreNumbered slots.now }
    ensures { result ≡ blocked_by (entries_in slots.now) chains.now.list allocs.now.list number command.now }
{
    match command {
        Command::Trade(trade) => lesser(
            chains.first_needing(number),
            allocs.first_naming(&trade.key, number),
        ),
        Command::Correct(correct) => blocked_correct(slots, chains, allocs, number, correct),
        Command::AllocNew(_) | Command::AllocReplace(_) | Command::AllocCancel(_) => {
            allocs.first_needing(number)
        }
        Command::Bust(_) | Command::Withdraw(_) => None,
    }
}

// The number of the first entry that needs a Correct.
fn blocked_correct(
    slots: &[EntrySlot],
    chains: &Chains,
    allocs: &Allocs,
    number: u64,
    correct: &Correct,
) -> Option<u64>
    requires { AreNumbered slots.now }
    ensures { result ≡ blocked_correct (entries_in slots.now) chains.now.list allocs.now.list number correct.now }
{
    let root = chains.root_of(&correct.key)?;
    let until = needed_until(slots, chains, number, &root, &correct.fill);
    let listing = first_listing(slots, allocs, number, &correct.key, &root, until);
    lesser(chains.first_needing(number), listing)
}

// The number below which allocations of the chain of a root see the fill of the version of a number as one that was changed.
fn needed_until(
    slots: &[EntrySlot],
    chains: &Chains,
    number: u64,
    root: &ExecKey,
    fill: &Fill,
) -> u64
    requires { AreNumbered slots.now }
    ensures { result ≡ needed_until (entries_in slots.now) chains.now.list number root.now fill.now }
{
    if !changes_version(slots, chains, number, root, fill) {
        return 0;
    }
    match chains.version_after(root, number) {
        Some(next) => next,
        None => EVENTS_MAX + 1,
    }
}

// Whether a fill isn't like that of the last version of the chain of a root below a number.
fn changes_version(
    slots: &[EntrySlot],
    chains: &Chains,
    number: u64,
    root: &ExecKey,
    fill: &Fill,
) -> bool
    requires { AreNumbered slots.now }
    ensures { result ≡ changes_version (entries_in slots.now) chains.now.list number root.now fill.now }
{
    match chains.version_before(root, number) {
        None => false,
        Some(before) => match fill_numbered(slots, before) {
            None => false,
            Some(old) => !fill.is_alike(old),
        },
    }
}

// The number of the first allocation above a number that lists an execution of the chain of a root, and is numbered below
// `until` or lists the execution of the key.
fn first_listing(
    slots: &[EntrySlot],
    allocs: &Allocs,
    number: u64,
    key: &ExecKey,
    root: &ExecKey,
    until: u64,
) -> Option<u64>
    requires { AreNumbered slots.now }
    ensures { result ≡ first_listing (entries_in slots.now) key.now root.now until number allocs.now.list }
{
    let mut above = number;
    while let Some(next) = allocs.first_naming(root, above) {
        if next < until || lists_at(slots, key, next) {
            return Some(next);
        }
        above = next;
    }
    None
}

// Whether the entry of a number lists an execution.
fn lists_at(slots: &[EntrySlot], key: &ExecKey, number: u64) -> bool
    requires { AreNumbered slots.now }
    ensures { result ≡ lists_at (entries_in slots.now) key.now number }
{
    match entry_numbered(slots, number) {
        None => false,
        Some(entry) => is_among(entry.command.listed(), key),
    }
}

// Whether an execution is among some.
fn is_among(keys: &[ExecKey], key: &ExecKey) -> bool
    ensures { result ≡ is_among keys.now key.now }
{
    keys.iter().any(|other| *other == *key)
}

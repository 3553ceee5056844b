//! The entries of a chain of executions, and the allocations that name it.
ghost use Rattle.std.specs.Prelude.{◌≡◌};
ghost use Rattle.blot_types.specs.Chains.{is_root};
ghost use Rattle.blot_types.specs.Survivors.{root_of};
ghost use Rattle.blot_withdraw.specs.Erasure.{chained_by, is_of_chain, lists_chain, first_listing};

use blot_model::root_of;
use blot_types::{Command, Entry, ExecKey};

/// Whether an entry is of the chain of a root: it is its Trade, one of its Corrects, or its Bust.
pub(crate) fn is_of_chain(list: &[Entry], root: &ExecKey, entry: &Entry) -> bool
    ensures { result ≡ is_of_chain list.now root.now entry.now }
{
    match chained_by(&entry.command) {
        None => false,
        Some(key) => is_rooted(list, root, &key),
    }
}

/// The number of the first allocation, live or ended, that lists an execution of the chain of a root.
pub(crate) fn first_listing(list: &[Entry], root: &ExecKey) -> Option<u64>
    ensures { result ≡ first_listing list.now root.now }
{
    for entry in list {
        if lists_chain(list, root, entry) {
            return Some(entry.number);
        }
    }
    None
}

// Whether an entry is an allocation that lists an execution of the chain of a root.
fn lists_chain(list: &[Entry], root: &ExecKey, entry: &Entry) -> bool
    ensures { result ≡ lists_chain list.now root.now entry.now }
{
    entry
        .command
        .listed()
        .iter()
        .any(|key| is_rooted(list, root, key))
}

// Whether an execution is of the chain of a root.
fn is_rooted(list: &[Entry], root: &ExecKey, key: &ExecKey) -> bool
    ensures { result ≡ is_root root.now (root_of list.now key.now) }
{
    match root_of(list, key) {
        None => false,
        Some(found) => found == *root,
    }
}

// The execution by which a command is of a chain: its own for a Trade and a Correct, its reference for a Bust.
fn chained_by(command: &Command) -> Option<ExecKey>
    ensures { result ≡ chained_by command.now }
{
    match command {
        Command::Trade(trade) => Some(trade.key),
        Command::Correct(correct) => Some(correct.key),
        Command::Bust(bust) => Some(bust.reference),
        Command::AllocNew(_)
        | Command::AllocReplace(_)
        | Command::AllocCancel(_)
        | Command::Withdraw(_) => None,
    }
}

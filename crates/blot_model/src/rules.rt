//! Why a list refuses a command: one function a rule, in the order of the rules.
ghost use Rattle.std.specs.Prelude.{◌≡◌, ◌==◌, [], pos, find, is_none, reverse, option_copied};
ghost use Rattle.std.specs.List.{list_any};
ghost use Rattle.blot_types.specs.Allocations.{instructions_of};
ghost use Rattle.blot_types.specs.Chains.{root_in};
ghost use Rattle.blot_types.specs.Refusals.{is_live, never_entry, duplicate_exec, duplicate_alloc, unknown_alloc, dead_alloc, unknown_exec, busted_exec, repeated_exec, exec_taken, instrument, quantity, first_of, bust_of_key, same_chain, repeated_in, other_holder};
ghost use Rattle.blot_types.specs.Survivors.{links_of};
ghost use Rattle.blot_model.specs.Rules.{is_other};

use crate::allocations::{ended_by, is_allocation, other_holder_of, taker_of};
use crate::amounts::{current_fill, wanted};
use crate::chains::{bust_of, number_of, root_of};
use blot_types::{AllocKey, Command, Entry, ExecKey, Instruction, Refused, Terms};

/// It takes an entry out, and so is none.
pub(crate) fn never_entry(command: &Command) -> Option<Refused>
    ensures { result ≡ never_entry command.now }
{
    command.withdrawn().map(Refused::NotLive)
}

/// Whether the entry of a number is there.
pub(crate) fn is_live(list: &[Entry], number: u64) -> bool
    ensures { result ≡ is_live number list.now }
{
    entry_at(list, number).is_some()
}

// The entry of a number.
fn entry_at(list: &[Entry], number: u64) -> Option<&Entry>
    ensures { option_copied result ≡ find (λ entry. entry.number == number) list.now }
{
    list.iter().find(|entry| entry.number == number)
}

/// Its execution is taken up.
pub(crate) fn duplicate_exec(list: &[Entry], command: &Command) -> Option<Refused>
    ensures { result ≡ duplicate_exec (reverse list.now) command.now }
{
    let key = command.exec_key()?;
    number_of(list, &key).map(Refused::DuplicateExec)
}

/// Its allocation is taken up.
pub(crate) fn duplicate_alloc(
    list: &[Entry],
    instructions: &[Instruction],
    command: &Command,
) -> Option<Refused>
    requires { instructions.now ≡ instructions_of list.now }
    ensures { result ≡ duplicate_alloc (reverse list.now) command.now }
{
    let key = command.alloc_key()?;
    taker_of(instructions, &key).map(Refused::DuplicateAlloc)
}

/// There is no allocation of its reference.
pub(crate) fn unknown_alloc(
    list: &[Entry],
    instructions: &[Instruction],
    command: &Command,
) -> Option<Refused>
    requires { instructions.now ≡ instructions_of list.now }
    ensures { result ≡ unknown_alloc (reverse list.now) command.now }
{
    let reference = command.alloc_reference()?;
    if is_allocation(instructions, &reference) {
        return None;
    }
    Some(Refused::UnknownAlloc)
}

/// The allocation of its reference was ended.
pub(crate) fn dead_alloc(
    list: &[Entry],
    instructions: &[Instruction],
    command: &Command,
) -> Option<Refused>
    requires { instructions.now ≡ instructions_of list.now }
    ensures { result ≡ dead_alloc (reverse list.now) command.now }
{
    let reference = command.alloc_reference()?;
    ended_by(instructions, &reference).map(Refused::DeadAlloc)
}

/// One of its executions has no root.
pub(crate) fn unknown_exec(list: &[Entry], command: &Command) -> Option<Refused>
    ensures { result ≡ unknown_exec (reverse list.now) command.now }
{
    first_unknown(list, command.exec_references()).map(Refused::UnknownExec)
}

// The first of some executions without a root.
fn first_unknown(list: &[Entry], keys: &[ExecKey]) -> Option<ExecKey>
    ensures { result ≡ find (λ key. is_none (root_in (links_of list.now) key)) keys.now }
{
    for key in keys {
        if root_of(list, key).is_none() {
            return Some(*key);
        }
    }
    None
}

/// One of its executions is busted.
pub(crate) fn busted_exec(list: &[Entry], command: &Command) -> Option<Refused>
    ensures { result ≡ busted_exec (reverse list.now) command.now }
{
    first_bust(list, command.exec_references()).map(Refused::BustedExec)
}

// The Bust of the first of some executions that is busted.
fn first_bust(list: &[Entry], keys: &[ExecKey]) -> Option<u64>
    ensures { result ≡ first_of (bust_of_key (links_of list.now)) keys.now }
{
    for key in keys {
        if let Some(number) = bust_of_key(list, key) {
            return Some(number);
        }
    }
    None
}

// The Bust of the chain of a key.
fn bust_of_key(list: &[Entry], key: &ExecKey) -> Option<u64>
    ensures { result ≡ bust_of_key (links_of list.now) key.now }
{
    let root = root_of(list, key)?;
    bust_of(list, &root)
}

/// One of the executions that it lists is of the chain of one listed before.
pub(crate) fn repeated_exec(list: &[Entry], command: &Command) -> Option<Refused>
    ensures { result ≡ repeated_exec (reverse list.now) command.now }
{
    first_repeated(list, command.listed()).map(Refused::RepeatedExec)
}

// The first of some executions that is of the chain of one before it.
fn first_repeated(list: &[Entry], keys: &[ExecKey]) -> Option<ExecKey>
    ensures { result ≡ repeated_in (links_of list.now) [] keys.now }
{
    for (index, key) in keys.iter().enumerate() {
        if is_repeated(list, key, &keys[..index]) {
            return Some(*key);
        }
    }
    None
}

// Whether a key is of the chain of one of these.
fn is_repeated(list: &[Entry], key: &ExecKey, before: &[ExecKey]) -> bool
    ensures { result ≡ list_any (same_chain (links_of list.now) key.now) before.now }
{
    before.iter().any(|other| is_same_chain(list, key, other))
}

// Whether two keys are of one chain.
fn is_same_chain(list: &[Entry], key: &ExecKey, other: &ExecKey) -> bool
    ensures { result ≡ same_chain (links_of list.now) key.now other.now }
{
    match (root_of(list, key), root_of(list, other)) {
        (Some(root), Some(other)) => other == root,
        _ => false,
    }
}

/// A live allocation, other than the one referred to, names the chain of one of the executions that it lists.
pub(crate) fn exec_taken(
    list: &[Entry],
    instructions: &[Instruction],
    command: &Command,
) -> Option<Refused>
    requires { instructions.now ≡ instructions_of list.now }
    ensures { result ≡ exec_taken (reverse list.now) command.now }
{
    let reference = command.alloc_reference();
    first_holder(list, instructions, &reference, command.listed()).map(Refused::ExecTaken)
}

// The live allocation, other than the one referred to, that names the first chain so named.
fn first_holder(
    list: &[Entry],
    instructions: &[Instruction],
    reference: &Option<AllocKey>,
    keys: &[ExecKey],
) -> Option<u64>
    ensures { result ≡ first_of (other_holder (links_of list.now) instructions.now reference.now) keys.now }
{
    for key in keys {
        if let Some(number) = other_holder(list, instructions, reference, key) {
            return Some(number);
        }
    }
    None
}

// The live allocation, other than the one referred to, that names the chain of a key.
fn other_holder(
    list: &[Entry],
    instructions: &[Instruction],
    reference: &Option<AllocKey>,
    key: &ExecKey,
) -> Option<u64>
    ensures { result ≡ other_holder (links_of list.now) instructions.now reference.now key.now }
{
    let root = root_of(list, key)?;
    other_holder_of(instructions, *reference, &root)
}

/// One of the executions that it lists is of another instrument or side.
pub(crate) fn instrument(list: &[Entry], command: &Command) -> Option<Refused>
    ensures { result ≡ instrument (reverse list.now) command.now }
{
    let terms = command.terms()?;
    first_other(list, terms).map(Refused::Instrument)
}

// The first listed execution whose last version is of another instrument or side than the terms.
fn first_other(list: &[Entry], terms: &Terms) -> Option<ExecKey>
    ensures { result ≡ find (is_other list.now terms.now) terms.now.execs }
{
    for key in terms.execs.as_slice() {
        if is_other(list, terms, key) {
            return Some(*key);
        }
    }
    None
}

// Whether the last version of an execution is of another instrument or side than the terms.
fn is_other(list: &[Entry], terms: &Terms, key: &ExecKey) -> bool
    ensures { result ≡ is_other list.now terms.now key.now }
{
    match current_fill(list, key) {
        None => false,
        Some(fill) => terms.differs(&fill),
    }
}

/// Its block or its lines aren't the quantity of its executions.
pub(crate) fn quantity(list: &[Entry], command: &Command) -> Option<Refused>
    ensures { result ≡ quantity (reverse list.now) command.now }
{
    let terms = command.terms()?;
    terms.mismatch(wanted(list, terms.execs.as_slice()))
}

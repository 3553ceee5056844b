//! Why the live list refuses a command: one function a rule, in the order of the rules.
ghost use Rattle.std.specs.Prelude.{◌≡◌, [], reverse, find, is_none, option_copied, option_map};
ghost use Rattle.std.specs.List.{list_any};
ghost use Rattle.blot_types.specs.declared.link.Role.TheVariants.{Begins, Corrects, Busts};
ghost use Rattle.blot_types.specs.declared.refused.Refused.TheVariants.{DuplicateAlloc};
ghost use Rattle.blot_types.specs.Chains.{current_of_key, root_in, is_root, link_refusal};
ghost use Rattle.blot_types.specs.Instructions.{alloc_taker_in};
ghost use Rattle.blot_types.specs.Legal.{entry_refusal};
ghost use Rattle.blot_types.specs.Refusals.{first_of, bust_of_key, same_chain, repeated_in, other_holder, current_fill};
ghost use Rattle.blot_chain.specs.Steps.{exec_refusal};
ghost use Rattle.blot_command.specs.Refusing.{HoldsBoth, HoldsChainsOf, other_instrument, reference_refusal, terms_refusal, wanted};
ghost use Rattle.blot_command.specs.Shown.{current_version};
ghost use Rattle.blot_command.specs.Slots.{entries_in};

use crate::slots::{EntrySlot, fill_numbered, version_numbered};
use blot_alloc::Allocs;
use blot_chain::Chains;
use blot_types::{AllocKey, Command, ExecKey, Fill, Refused, Terms, Version};

/// Why the entries in some slots, with their chains and their allocations, refuse a command as the next entry.
pub(crate) fn refusal(
    slots: &[EntrySlot],
    chains: &Chains,
    allocs: &Allocs,
    command: &Command,
) -> Option<Refused>
    requires { HoldsBoth slots.now chains.now.list allocs.now.list }
    ensures { result ≡ entry_refusal (entries_in slots.now) command.now }
{
    match command {
        Command::Trade(trade) => duplicate_exec(chains, &trade.key),
        Command::Correct(correct) => follower_refusal(chains, &correct.key, &correct.reference),
        Command::Bust(bust) => follower_refusal(chains, &bust.key, &bust.reference),
        Command::AllocNew(new) => {
            if let Some(refused) = duplicate_alloc(allocs, &new.key) {
                return Some(refused);
            }
            terms_refusal(slots, chains, allocs, &new.terms, &None)
        }
        Command::AllocReplace(replace) => {
            if let Some(refused) = duplicate_alloc(allocs, &replace.key) {
                return Some(refused);
            }
            if let Some(refused) = reference_refusal(allocs, &replace.reference) {
                return Some(refused);
            }
            let reference = Some(replace.reference);
            terms_refusal(slots, chains, allocs, &replace.terms, &reference)
        }
        Command::AllocCancel(cancel) => {
            if let Some(refused) = duplicate_alloc(allocs, &cancel.key) {
                return Some(refused);
            }
            reference_refusal(allocs, &cancel.reference)
        }
        Command::Withdraw(number) => Some(Refused::NotLive(*number)),
    }
}

// Whether the key of an execution is taken up, which is all that a Trade is refused for.
fn duplicate_exec(chains: &Chains, key: &ExecKey) -> Option<Refused>
    ensures { result ≡ link_refusal chains.now.list key.now Begins }
{
    chains.number_of(key).map(Refused::DuplicateExec)
}

// Why a Correct or a Bust is refused: its key is taken up, or else what its reference is refused for.
fn follower_refusal(chains: &Chains, key: &ExecKey, reference: &ExecKey) -> Option<Refused>
    ensures corrects { result ≡ link_refusal chains.now.list key.now (Corrects reference.now) }
    ensures busts { result ≡ link_refusal chains.now.list key.now (Busts reference.now) }
{
    match duplicate_exec(chains, key) {
        None => chain_refusal(chains, reference),
        refused => refused,
    }
}

// Why a reference to an execution is refused: it has no root, or its chain is busted.
fn chain_refusal(chains: &Chains, reference: &ExecKey) -> Option<Refused>
    ensures { result ≡ exec_refusal chains.now.list reference.now }
{
    match chains.root_of(reference) {
        None => Some(Refused::UnknownExec(*reference)),
        Some(root) => chains.bust_of(&root).map(Refused::BustedExec),
    }
}

// Whether the key of an allocation is taken up.
fn duplicate_alloc(allocs: &Allocs, key: &AllocKey) -> Option<Refused>
    ensures { result ≡ option_map DuplicateAlloc (alloc_taker_in allocs.now.list key.now) }
{
    allocs.number_of(key).map(Refused::DuplicateAlloc)
}

// Why a reference to an allocation is refused: there is none of that key, or it was ended.
fn reference_refusal(allocs: &Allocs, reference: &AllocKey) -> Option<Refused>
    ensures { result ≡ reference_refusal allocs.now.list reference.now }
{
    if !allocs.is_allocation(reference) {
        return Some(Refused::UnknownAlloc);
    }
    allocs.ended_by(reference).map(Refused::DeadAlloc)
}

// Why terms are refused, for an allocation that takes the place of the one referred to, if it does.
fn terms_refusal(
    slots: &[EntrySlot],
    chains: &Chains,
    allocs: &Allocs,
    terms: &Terms,
    reference: &Option<AllocKey>,
) -> Option<Refused>
    requires { HoldsBoth slots.now chains.now.list allocs.now.list }
    ensures { result ≡ terms_refusal (entries_in slots.now) reference.now terms.now }
{
    let execs = terms.execs.as_slice();
    if let Some(key) = unknown_exec(chains, execs) {
        return Some(Refused::UnknownExec(key));
    }
    if let Some(number) = busted_exec(chains, execs) {
        return Some(Refused::BustedExec(number));
    }
    if let Some(key) = repeated_exec(chains, execs) {
        return Some(Refused::RepeatedExec(key));
    }
    if let Some(number) = exec_taken(chains, allocs, execs, reference) {
        return Some(Refused::ExecTaken(number));
    }
    if let Some(key) = other_instrument(slots, chains, terms, execs) {
        return Some(Refused::Instrument(key));
    }
    terms.mismatch(wanted(slots, chains, execs))
}

// The first listed execution without a root.
fn unknown_exec(chains: &Chains, execs: &[ExecKey]) -> Option<ExecKey>
    ensures { result ≡ find (λ key. is_none (root_in chains.now.list key)) execs.now }
{
    for key in execs {
        if chains.root_of(key).is_none() {
            return Some(*key);
        }
    }
    None
}

// The Bust of the first listed execution that is busted.
fn busted_exec(chains: &Chains, execs: &[ExecKey]) -> Option<u64>
    ensures { result ≡ first_of (bust_of_key chains.now.list) execs.now }
{
    for key in execs {
        if let Some(number) = bust_of_key(chains, key) {
            return Some(number);
        }
    }
    None
}

// The Bust of the chain of a key.
fn bust_of_key(chains: &Chains, key: &ExecKey) -> Option<u64>
    ensures { result ≡ bust_of_key chains.now.list key.now }
{
    let root = chains.root_of(key)?;
    chains.bust_of(&root)
}

// The first listed execution that is of the chain of one listed before it.
fn repeated_exec(chains: &Chains, execs: &[ExecKey]) -> Option<ExecKey>
    ensures { result ≡ repeated_in chains.now.list [] execs.now }
{
    for (index, key) in execs.iter().enumerate() {
        if is_repeated(chains, key, &execs[..index]) {
            return Some(*key);
        }
    }
    None
}

// Whether a key is of the chain of one of these.
fn is_repeated(chains: &Chains, key: &ExecKey, before: &[ExecKey]) -> bool
    ensures { result ≡ list_any (same_chain chains.now.list key.now) before.now }
{
    match chains.root_of(key) {
        None => false,
        Some(root) => before.iter().any(|other| is_of_chain(chains, &root, other)),
    }
}

// Whether a key is of the chain of a root.
fn is_of_chain(chains: &Chains, root: &ExecKey, key: &ExecKey) -> bool
    ensures { result ≡ is_root root.now (root_in chains.now.list key.now) }
{
    match chains.root_of(key) {
        None => false,
        Some(other) => other == *root,
    }
}

// The live allocation, other than the one referred to, that names the first listed chain so named.
fn exec_taken(
    chains: &Chains,
    allocs: &Allocs,
    execs: &[ExecKey],
    reference: &Option<AllocKey>,
) -> Option<u64>
    ensures { result ≡ first_of (other_holder chains.now.list allocs.now.list reference.now) execs.now }
{
    for key in execs {
        if let Some(number) = other_holder(chains, allocs, key, reference) {
            return Some(number);
        }
    }
    None
}

// The live allocation, other than the one referred to, that names the chain of a key.
fn other_holder(
    chains: &Chains,
    allocs: &Allocs,
    key: &ExecKey,
    reference: &Option<AllocKey>,
) -> Option<u64>
    ensures { result ≡ other_holder chains.now.list allocs.now.list reference.now key.now }
{
    let root = chains.root_of(key)?;
    allocs.other_holder_of(*reference, &root)
}

// The first listed execution whose last version has another symbol or sign than the terms.
fn other_instrument(
    slots: &[EntrySlot],
    chains: &Chains,
    terms: &Terms,
    execs: &[ExecKey],
) -> Option<ExecKey>
    requires { HoldsChainsOf slots.now chains.now.list }
    ensures { result ≡ other_instrument (entries_in slots.now) terms.now execs.now }
{
    for key in execs {
        if let Some(fill) = current_fill(slots, chains, key) {
            if terms.differs(fill) {
                return Some(*key);
            }
        }
    }
    None
}

// The fill of the last version of the chain of a key.
fn current_fill<'a>(slots: &'a [EntrySlot], chains: &Chains, key: &ExecKey) -> Option<&'a Fill>
    requires { HoldsChainsOf slots.now chains.now.list }
    ensures { option_copied result ≡ current_fill (reverse (entries_in slots.now)) key.now }
{
    fill_numbered(slots, current_number(chains, key)?)
}

/// The last version of the chain of a key.
pub(crate) fn current_version(
    slots: &[EntrySlot],
    chains: &Chains,
    key: &ExecKey,
) -> Option<Version>
    requires { HoldsChainsOf slots.now chains.now.list }
    ensures { result ≡ current_version (entries_in slots.now) key.now }
{
    version_numbered(slots, current_number(chains, key)?)
}

// The number of the last version of the chain of a key.
fn current_number(chains: &Chains, key: &ExecKey) -> Option<u64>
    ensures { result ≡ current_of_key chains.now.list key.now }
{
    let root = chains.root_of(key)?;
    chains.current(&root)
}

// The quantity of the last versions of the listed executions, in units of 10^-6.
fn wanted(slots: &[EntrySlot], chains: &Chains, execs: &[ExecKey]) -> i128
    requires { HoldsChainsOf slots.now chains.now.list }
    ensures { result ≡ wanted (entries_in slots.now) execs.now }
{
    let mut sum = 0;
    for key in execs {
        if let Some(fill) = current_fill(slots, chains, key) {
            sum += i128::from(fill.qty.units());
        }
    }
    sum
}

//! An entry as the chains and the allocations see it: added to them, and taken back.
ghost use Rattle.std.specs.Prelude.{◌≡◌, IsTrue, IfOk, OnOk, OnErr, filter_map};
ghost use Rattle.blot_types.specs.Chains.{root_in, is_above_links};
ghost use Rattle.blot_types.specs.Instructions.{is_above_instructions};
ghost use Rattle.blot_command.specs.Linking.{CanLift, CanLink, CanUnLift, IsLinkedLast, lifted_allocs, lifted_chains, returned_allocs, returned_chains, with_instruction, with_link, without_link, without_instruction};

use blot_alloc::Allocs;
use blot_chain::Chains;
use blot_types::{Command, Entry, ExecKey, Items};
use std::alloc::{AllocError as NoMemory, Global};

/// Adds an entry that the chains and the allocations accept. Its number is above those that they keep. Out of
/// memory is the only error, and then nothing has changed.
pub(crate) fn link_entry(
    alloc: Global,
    chains: &mut Chains,
    allocs: &mut Allocs,
    entry: &Entry,
) -> Result<(), NoMemory>
    requires next { CanLink entry.now chains.old.list allocs.old.list }
    requires above { IsTrue (is_above_links entry.now.number chains.old.kept) }
    requires above_instructions { IsTrue (is_above_instructions entry.now.number allocs.old.kept) }
    ensures chains { OnOk result (chains.new.list ≡ with_link entry.now chains.old.list) }
    ensures allocs { OnOk result (allocs.new.list ≡ with_instruction entry.now chains.old.list allocs.old.list) }
    ensures kept { chains.new.kept ≡ chains.old.kept }
    ensures kept_instructions { allocs.new.kept ≡ allocs.old.kept }
    ensures same_chains { OnErr result (chains.new ≡ chains.old) }
    ensures same_allocs { OnErr result (allocs.new ≡ allocs.old) }
{
    let number = entry.number;
    match &entry.command {
        Command::Trade(trade) => chains.add(number, &trade.key),
        Command::Correct(correct) => chains.correct(number, &correct.key, &correct.reference),
        Command::Bust(bust) => chains.bust(number, &bust.key, &bust.reference),
        Command::AllocNew(new) => {
            let roots = roots_of(alloc, chains, &new.terms.execs)?;
            allocs.admit(number, &new.key, roots)
        }
        Command::AllocReplace(replace) => {
            let roots = roots_of(alloc, chains, &replace.terms.execs)?;
            allocs.replace(number, &replace.key, &replace.reference, roots)
        }
        Command::AllocCancel(cancel) => allocs.cancel(number, &cancel.key, &cancel.reference),
        Command::Withdraw(_) => Ok(()),
    }
}

// The roots of listed executions.
fn roots_of(
    alloc: Global,
    chains: &Chains,
    execs: &Items<ExecKey>,
) -> Result<Items<ExecKey>, NoMemory>
    ensures { IfOk result (λ roots. roots ≡ filter_map (root_in chains.now.list) execs.now) }
{
    let mut roots = Vec::new(alloc);
    for key in execs.as_slice() {
        if let Some(root) = chains.root_of(key) {
            roots.push(root)?;
        }
    }
    Ok(Items::new(roots))
}

/// Takes back the entry that was added last, after all that are kept.
pub(crate) fn unlink_entry(chains: &mut Chains, allocs: &mut Allocs, entry: &Entry)
    requires last { IsLinkedLast entry.now chains.old.list allocs.old.list }
    requires above { IsTrue (is_above_links entry.now.number chains.old.kept) }
    requires above_instructions { IsTrue (is_above_instructions entry.now.number allocs.old.kept) }
    ensures chains { chains.new.list ≡ without_link entry.now.command chains.old.list }
    ensures kept { chains.new.kept ≡ chains.old.kept }
    ensures kept_instructions { allocs.new.kept ≡ allocs.old.kept }
    ensures allocs { allocs.new.list ≡ without_instruction entry.now.command allocs.old.list }
{
    match &entry.command {
        Command::Trade(trade) => chains.un_add(&trade.key),
        Command::Correct(correct) => chains.un_correct(&correct.key, &correct.reference),
        Command::Bust(bust) => chains.un_bust(&bust.key, &bust.reference),
        Command::AllocNew(new) => allocs.un_admit(&new.key),
        Command::AllocReplace(replace) => allocs.un_replace(&replace.key, &replace.reference),
        Command::AllocCancel(cancel) => allocs.un_cancel(&cancel.key, &cancel.reference),
        Command::Withdraw(_) => {}
    }
}

/// Lifts an entry out of the chains and the allocations, whatever came later. No memory is taken.
pub(crate) fn lift_entry(chains: &mut Chains, allocs: &mut Allocs, entry: &Entry)
    requires { CanLift entry.now chains.old allocs.old }
    ensures chains { chains.new ≡ lifted_chains entry.now chains.old }
    ensures allocs { allocs.new ≡ lifted_allocs entry.now allocs.old }
{
    match &entry.command {
        Command::Trade(_) | Command::Correct(_) | Command::Bust(_) => chains.lift(entry.number),
        Command::AllocNew(_) | Command::AllocReplace(_) | Command::AllocCancel(_) => {
            allocs.lift(entry.number);
        }
        Command::Withdraw(_) => {}
    }
}

/// Puts an entry that was lifted out back at its place. No memory is taken.
pub(crate) fn un_lift_entry(chains: &mut Chains, allocs: &mut Allocs, entry: &Entry)
    requires { CanUnLift entry.now chains.old allocs.old }
    ensures chains { chains.new ≡ returned_chains entry.now chains.old }
    ensures allocs { allocs.new ≡ returned_allocs entry.now allocs.old }
{
    match &entry.command {
        Command::Trade(_) | Command::Correct(_) | Command::Bust(_) => chains.un_lift(entry.number),
        Command::AllocNew(_) | Command::AllocReplace(_) | Command::AllocCancel(_) => {
            allocs.un_lift(entry.number);
        }
        Command::Withdraw(_) => {}
    }
}

//! The live list.
ghost use Rattle.std.specs.Prelude.{◌≡◌, ◌<◌, [], ◌∷◌, ◌++◌, length, find, None, Some, IsSome, IsTrue, OnOk, OnErr, IfOk, IfErr, option_map, option_and_then, option_copied};
ghost use Rattle.std.specs.List.{last_or};
ghost use Rattle.blot_types.specs.Allocations.{instructions_of};
ghost use Rattle.blot_types.specs.Instructions.{is_keyed};
ghost use Rattle.blot_types.specs.Legal.{is_above_entries, is_book, entry_refusal, least_needing, without};
ghost use Rattle.blot_types.specs.Position.{is_named};
ghost use Rattle.blot_types.specs.StandingVersion.{chain_by, standing};
ghost use Rattle.blot_types.specs.Survivors.{links_of};
ghost use Rattle.blot_command.specs.Book.{has_number};
ghost use Rattle.blot_command.specs.Shown.{standing_fill, version_replaced, terms_of_key, terms_keyed, roots_keyed};
ghost use Rattle.blot_command.specs.Questions.{allocation_of, execution_of};
ghost use Rattle.blot_command.specs.Slots.{entries_in};
ghost use Rattle.blot_command.specs.Standings.{standings_of, told_of};
ghost use Rattle.blot_command.specs.Withdrawing.{with_entry, HasLast, lifted, returned, CanReturn};

use crate::blocked::blocked;
use crate::linking::{lift_entry, link_entry, un_lift_entry, unlink_entry};
use crate::questions::{allocation, chain_by, execution};
use crate::refusal::{current_version, refusal};
use crate::slots::{
    EntrySlot, entry_numbered, fill_numbered, newest_number, put_in, take_out, version_numbered,
};
use crate::standing::standings_in;
use crate::{AllocationAnswer, BoxedEntry, ExecutionAnswer, Standing, Told};
use blot_alloc::Allocs;
use blot_chain::Chains;
use blot_types::{AllocKey, Command, Entry, ExecKey, Fill, Link, Refused, Terms, Version};
use std::alloc::{AllocError as NoMemory, Global};
use std::marker::Model;

/// The live list of entries, in rising order of number, with the chains of its executions and the
/// instructions of its allocations. An entry that is taken out of the middle leaves its slot, and that of its link or instruction.
/// A contract sees the list, which is always legal, and the entries whose slots are left.
#[derive(Drop)]
pub(crate) struct LiveList {
    slots: Vec<EntrySlot>,
    chains: Chains,
    allocs: Allocs,
}

impl Model for LiveList {
    ghost use Rattle.blot_command.specs.Book.{Shown};
    ghost use Rattle.blot_command.specs.Linking.{HoldsLive};
    ghost use Rattle.blot_command.specs.Slots.{entries_in, left_in};

    ghost Value = { Shown };

    ghost view = { λ live. record { list = entries_in live.slots.items; kept = left_in live.slots.items } };

    ghost invariant = { λ live. HoldsLive live.slots.items live.chains live.allocs };
}

impl LiveList {
    /// An empty list. No memory is taken.
    pub(crate) fn new(alloc: Global) -> LiveList
        ensures { result ≡ record { list = []; kept = [] } }
    {
        LiveList {
            slots: Vec::new(alloc),
            chains: Chains::new(alloc),
            allocs: Allocs::new(alloc),
        }
    }

    /// The entry of a number, if it is live.
    pub(crate) fn entry(&self, number: u64) -> Option<&Entry>
        ensures { option_copied result ≡ find (has_number number) self.now.list }
    {
        entry_numbered(&self.slots, number)
    }

    /// The greatest number of the list: that of its last entry.
    pub(crate) fn newest(&self) -> Option<u64>
        ensures newest { result ≡ option_map (λ entry. entry.number) (last_or None self.now.list) }
        ensures book { IsTrue (is_book self.now.list) }
    {
        newest_number(&self.slots)
    }

    /// The entries, copied.
    pub(crate) fn entries(&self, alloc: Global) -> Result<Vec<Entry>, NoMemory>
        ensures { IfOk result (λ entries. entries.items ≡ self.now.list) }
    {
        let mut copies = Vec::with_capacity(alloc, self.slots.len())?;
        for slot in &self.slots {
            if let Some(entry) = slot.entry() {
                let copy = entry.try_copy(alloc)?;
                copies.push(copy)?;
            }
        }
        Ok(copies)
    }

    /// What each entry comes to. An error is out of memory.
    pub(crate) fn standings(&self, alloc: Global) -> Result<Vec<Standing>, NoMemory>
        ensures { IfOk result (λ standings. standings.items ≡ standings_of self.now.list) }
    {
        standings_in(alloc, &self.slots, &self.chains, &self.allocs)
    }

    /// The entries, each with what it comes to, where these are their standings. An error is out of memory.
    pub(crate) fn told(
        &self,
        alloc: Global,
        standings: &[Standing],
    ) -> Result<Vec<Told<'_>>, NoMemory>
        requires { standings.now ≡ standings_of self.now.list }
        ensures told { IfOk result (λ told. told.items ≡ told_of self.now.list) }
        ensures book { IsTrue (is_book self.now.list) }
    {
        let mut told = Vec::with_capacity(alloc, self.slots.len())?;
        for slot in &self.slots {
            if let Some(entry) = slot.entry() {
                let standing = standings[told.len()];
                told.push(Told::of(entry, standing))?;
            }
        }
        Ok(told)
    }

    /// The last entry of a list that has one.
    pub(crate) fn last(&self) -> &Entry
        requires { HasLast self.now }
        ensures last { last_or None self.now.list ≡ Some result.now }
        ensures book { IsTrue (is_book self.now.list) }
    {
        let Some(slot) = self.slots.last() else {
            unreachable!()
        };
        let Some(entry) = slot.entry() else {
            unreachable!()
        };
        entry
    }

    /// Why the list refuses a command as its next entry.
    pub(crate) fn refusal(&self, command: &Command) -> Option<Refused>
        ensures refusal { result ≡ entry_refusal self.now.list command.now }
        ensures book { IsTrue (is_book self.now.list) }
    {
        refusal(&self.slots, &self.chains, &self.allocs, command)
    }

    /// The number of the first entry that needs the one of a number, which is in the list.
    pub(crate) fn blocked(&self, number: u64) -> Option<u64>
        requires { IsSome (find (has_number number) self.now.list) }
        ensures blocked { result ≡ least_needing self.now.list number }
        ensures book { IsTrue (is_book self.now.list) }
    {
        blocked(&self.slots, &self.chains, &self.allocs, number)
    }

    /// What is told of the execution of a key.
    pub(crate) fn execution(&self, key: &ExecKey) -> Result<Option<ExecutionAnswer>, NoMemory>
        ensures answer { IfOk result (λ answer. answer ≡ execution_of self.now.list key.now) }
        ensures book { IsTrue (is_book self.now.list) }
    {
        execution(self.alloc(), &self.slots, &self.chains, &self.allocs, key)
    }

    /// What is told of the allocation of a key.
    pub(crate) fn allocation(&self, key: &AllocKey) -> Result<Option<AllocationAnswer>, NoMemory>
        ensures answer { IfOk result (λ answer. answer ≡ allocation_of self.now.list key.now) }
        ensures book { IsTrue (is_book self.now.list) }
    {
        allocation(self.alloc(), &self.slots, &self.allocs, key)
    }

    /// The version whose place an entry takes, or which it busts.
    pub(crate) fn replaced(&self, entry: &Entry) -> Option<Version>
        ensures { result ≡ version_replaced self.now.list entry.now }
    {
        match &entry.command {
            Command::Correct(correct) => {
                current_version(&self.slots, &self.chains, &correct.reference)
            }
            Command::Bust(bust) => current_version(&self.slots, &self.chains, &bust.reference),
            Command::Trade(_)
            | Command::AllocNew(_)
            | Command::AllocReplace(_)
            | Command::AllocCancel(_)
            | Command::Withdraw(_) => None,
        }
    }

    /// The fill of the version that stands of the chain of a root: the last one, where the chain isn't busted.
    pub(crate) fn standing_fill(&self, root: &ExecKey) -> Option<&Fill>
        ensures { option_copied result ≡ standing_fill self.now.list root.now }
    {
        let number = self.chains.standing_version(root)?;
        fill_numbered(&self.slots, number)
    }

    /// The root of the chain that an entry's link begins, corrects or busts.
    pub(crate) fn chain_of(&self, link: &Option<Link>) -> Option<ExecKey>
        ensures { result ≡ chain_by (links_of self.now.list) link.now }
    {
        chain_by(&self.chains, link)
    }

    /// The version that stands of a chain, if there is one.
    pub(crate) fn stood(&self, chain: &Option<ExecKey>) -> Option<Version>
        ensures { result ≡ option_and_then (standing self.now.list) chain.now }
    {
        match chain {
            None => None,
            Some(root) => version_numbered(&self.slots, self.chains.standing_version(root)?),
        }
    }

    /// Whether the chain of a key is named by a live allocation.
    pub(crate) fn is_named(&self, key: &ExecKey) -> bool
        ensures { result ≡ is_named self.now.list key.now }
    {
        match self.chains.root_of(key) {
            None => false,
            Some(root) => self.allocs.holder_of(&root).is_some(),
        }
    }

    /// The terms of the allocation of a key.
    pub(crate) fn terms_of(&self, key: &AllocKey) -> Option<&Terms>
        ensures { option_copied result ≡ terms_keyed self.now.list key.now }
    {
        match self.allocs.number_of(key) {
            None => None,
            Some(number) => match self.entry(number) {
                None => None,
                Some(entry) => terms_under(&entry.command, key),
            },
        }
    }

    /// The roots of the chains that the allocation of a key names.
    pub(crate) fn roots_of(&self, key: &AllocKey) -> Option<&[ExecKey]>
        ensures { option_map (λ roots. roots.now) result ≡ roots_keyed self.now.list key.now }
    {
        self.allocs.roots_of(key)
    }

    /// Where it takes its memory from.
    pub(crate) fn alloc(&self) -> Global {
        *self.slots.allocator()
    }

    /// Puts an entry after the others, or hands it back where memory runs out. Its number is above those whose slots are left.
    pub(crate) fn push(&mut self, entry: BoxedEntry) -> Result<(), BoxedEntry>
        requires book { IsTrue (is_book (self.old.list ++ entry ∷ [])) }
        requires above { IsTrue (is_above_entries entry.number self.old.kept) }
        ensures ok { OnOk result (self.new ≡ with_entry entry self.old) }
        ensures err { OnErr result (self.new ≡ self.old) }
        ensures returned { IfErr result (λ back. back ≡ entry) }
    {
        let alloc = self.alloc();
        let Ok(()) = self.slots.reserve(1) else {
            return Err(entry);
        };
        let Ok(()) = link_entry(alloc, &mut self.chains, &mut self.allocs, entry.as_entry()) else {
            return Err(entry);
        };
        self.slots.push_reserved(EntrySlot::new(entry));
        Ok(())
    }

    /// Takes the last entry out.
    pub(crate) fn pop(&mut self) -> BoxedEntry
        requires { HasLast self.old }
        ensures rest { self.old ≡ with_entry result self.new }
        ensures above { IsTrue (is_above_entries result.number self.new.kept) }
        ensures book { IsTrue (is_book self.old.list) }
    {
        let Some(slot) = self.slots.pop() else {
            unreachable!()
        };
        let Some(entry) = slot.into_entry() else {
            unreachable!()
        };
        let inner = entry.as_entry();
        unlink_entry(&mut self.chains, &mut self.allocs, inner);
        entry
    }

    /// Takes the entry of a number out, whatever came later, and keeps its slot. The list without it is a book. No memory is taken.
    pub(crate) fn lift(&mut self, number: u64) -> BoxedEntry
        requires there { IsSome (find (has_number number) self.old.list) }
        requires rest { IsTrue (is_book (without number self.old.list)) }
        ensures entry { find (has_number number) self.old.list ≡ Some result }
        ensures lifted { self.new ≡ lifted result self.old }
        ensures kept { CanReturn result self.new }
        ensures book { IsTrue (is_book self.old.list) }
    {
        let entry = take_out(&mut self.slots, number);
        lift_entry(&mut self.chains, &mut self.allocs, entry.as_entry());
        entry
    }

    /// Puts an entry whose slot is kept back at its place. No memory is taken.
    pub(crate) fn un_lift(&mut self, entry: BoxedEntry)
        requires { CanReturn entry self.old }
        ensures returned { self.new ≡ returned entry self.old }
        ensures book { IsTrue (is_book self.old.list) }
    {
        un_lift_entry(&mut self.chains, &mut self.allocs, entry.as_entry());
        put_in(&mut self.slots, entry);
    }
}

// The terms of a command, where it brings the allocation of a key.
fn terms_under<'a>(command: &'a Command, key: &AllocKey) -> Option<&'a Terms>
    ensures { option_copied result ≡ terms_of_key key.now command.now }
{
    match command {
        Command::AllocNew(new) if new.key == *key => Some(&new.terms),
        Command::AllocReplace(replace) if replace.key == *key => Some(&replace.terms),
        Command::Trade(_)
        | Command::Correct(_)
        | Command::Bust(_)
        | Command::AllocNew(_)
        | Command::AllocReplace(_)
        | Command::AllocCancel(_)
        | Command::Withdraw(_) => None,
    }
}

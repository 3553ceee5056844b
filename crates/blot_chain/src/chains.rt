//! The links of executions: added, taken back, lifted out, asked.
ghost use Rattle.std.specs.Prelude.{◌≡◌, [], Some, None, IfSome, IsSome, IsTrue, OnOk, OnErr};
ghost use Rattle.blot_types.specs.declared.link.Role.TheVariants.{Begins, Corrects, Busts};
ghost use Rattle.blot_types.specs.Chains.{root_in, current_in, bust_in, taker_in, link_refusal, is_above_links, is_chained, first_needing_link, version_after_in, version_before_in, standing_version_in};
ghost use Rattle.blot_types.specs.Laws.{IsOneTrade};
ghost use Rattle.blot_types.specs.StandingVersion.{chain_under};
ghost use Rattle.blot_chain.specs.Standing.{standing_root_in};
ghost use Rattle.blot_chain.specs.Steps.{Adds, AddsOne, CanReturn, IsNewest, exec_refusal, lifted_out, link_at, put_back};

use crate::chain_link::ChainLink;
use crate::index::{
    Index, number_above, number_below, number_on, referring_at, root_on, standing_at,
};
use blot_places::{Slot, live_numbered, mark, newest_live};
use blot_types::{ExecKey, Role, lesser};
use std::alloc::{AllocError as NoMemory, Global};
use std::marker::Model;

/// The links of the executions that are taken up, in the order in which they came, and where the links of a key and of the
/// chain of a root are among them. A link that is lifted out keeps its slot. A contract sees the list and the kept links,
/// both newest first. In the list each link was accepted after those before it, and the numbers fall.
#[derive(Drop)]
pub struct Chains {
    alloc: Global,
    slots: Vec<Slot<ChainLink>>,
    index: Index,
}

impl Model for Chains {
    ghost use Rattle.std.specs.Prelude.{reverse};
    ghost use Rattle.blot_places.specs.Shown.{Shown};
    ghost use Rattle.blot_types.specs.declared.link.Link.{Link};
    ghost use Rattle.blot_chain.specs.Holds.{HoldsChains, shown_of};

    ghost Value = { Shown Link };

    ghost view = { λ chains. shown_of (reverse chains.slots.items) };

    ghost invariant = { λ chains. HoldsChains chains.index (reverse chains.slots.items) };
}

impl Chains {
    /// No chains. No memory is taken.
    pub fn new(alloc: Global) -> Chains
        ensures { result ≡ record { list = []; kept = [] } }
    {
        Chains {
            alloc,
            slots: Vec::new(alloc),
            index: Index::new(alloc),
        }
    }

    /// Adds a Trade, which begins a chain. No listed link takes up its key, and its number is above those of
    /// all, listed or kept. An error leaves the chains as they were. FIX 4.4 volume 4, ExecType(150).
    pub fn add(&mut self, number: u64, key: &ExecKey) -> Result<(), NoMemory>
        requires accepted { link_refusal self.old.list key.now Begins ≡ None }
        requires above { IsTrue (is_above_links number self.old.list) }
        requires above_kept { IsTrue (is_above_links number self.old.kept) }
        ensures ok { OnOk result (Adds number key.now Begins self.old self.new) }
        ensures kept { self.new.kept ≡ self.old.kept }
        ensures err { OnErr result (self.new ≡ self.old) }
    {
        self.push_link(number, key, Role::Begins, key)
    }

    /// Adds a Correct, which brings a version to the chain of the reference. No listed link takes up its key,
    /// its number is above those of all, listed or kept, and the reference has a root, which isn't busted. An
    /// error leaves the chains as they were. FIX 4.4 volume 4, ExecRefID(19).
    pub fn correct(
        &mut self,
        number: u64,
        key: &ExecKey,
        reference: &ExecKey,
    ) -> Result<(), NoMemory>
        requires accepted { link_refusal self.old.list key.now (Corrects reference.now) ≡ None }
        requires above { IsTrue (is_above_links number self.old.list) }
        requires above_kept { IsTrue (is_above_links number self.old.kept) }
        ensures ok { OnOk result (Adds number key.now (Corrects reference.now) self.old self.new) }
        ensures kept { self.new.kept ≡ self.old.kept }
        ensures err { OnErr result (self.new ≡ self.old) }
    {
        let root = self.chain_of(reference);
        self.push_link(number, key, Role::Corrects(*reference), &root)
    }

    /// Adds a Bust, which ends the chain of the reference. No listed link takes up its key, its number is above
    /// those of all, listed or kept, and the reference has a root, which isn't busted. An error leaves the
    /// chains as they were. FIX 4.4 volume 4, ExecRefID(19).
    pub fn bust(&mut self, number: u64, key: &ExecKey, reference: &ExecKey) -> Result<(), NoMemory>
        requires accepted { link_refusal self.old.list key.now (Busts reference.now) ≡ None }
        requires above { IsTrue (is_above_links number self.old.list) }
        requires above_kept { IsTrue (is_above_links number self.old.kept) }
        ensures ok { OnOk result (Adds number key.now (Busts reference.now) self.old self.new) }
        ensures kept { self.new.kept ≡ self.old.kept }
        ensures err { OnErr result (self.new ≡ self.old) }
    {
        let root = self.chain_of(reference);
        self.push_link(number, key, Role::Busts(*reference), &root)
    }

    /// Takes back a Trade of this key, the newest link. No memory is taken. This project's rule.
    pub fn un_add(&mut self, key: &ExecKey)
        requires newest { IsNewest key.now Begins self.old }
        ensures adds { AddsOne key.now Begins self.new self.old }
        ensures kept { self.new.kept ≡ self.old.kept }
    {
        self.pop_link(key, Role::Begins);
    }

    /// Takes back a Correct of this key and reference, the newest link. No memory is taken. This project's rule.
    pub fn un_correct(&mut self, key: &ExecKey, reference: &ExecKey)
        requires newest { IsNewest key.now (Corrects reference.now) self.old }
        ensures adds { AddsOne key.now (Corrects reference.now) self.new self.old }
        ensures kept { self.new.kept ≡ self.old.kept }
    {
        self.pop_link(key, Role::Corrects(*reference));
    }

    /// Takes back a Bust of this key and reference, the newest link. No memory is taken. This project's rule.
    pub fn un_bust(&mut self, key: &ExecKey, reference: &ExecKey)
        requires newest { IsNewest key.now (Busts reference.now) self.old }
        ensures adds { AddsOne key.now (Busts reference.now) self.new self.old }
        ensures kept { self.new.kept ≡ self.old.kept }
    {
        self.pop_link(key, Role::Busts(*reference));
    }

    /// Lifts the link of a number out of the list, whatever came later, and keeps its slot: put back, it stands
    /// where it stood. The link is listed, and the list without it is chained. No memory is taken. This
    /// project's rule.
    pub fn lift(&mut self, number: u64)
        requires listed { IsSome (link_at number self.old.list) }
        requires chained { IsTrue (is_chained (lifted_out number self.old).list) }
        ensures lifted { self.new ≡ lifted_out number self.old }
        ensures back { put_back number self.new ≡ self.old }
        ensures kept { CanReturn number self.new }
    {
        mark(&mut self.slots, number, false);
    }

    /// Puts the link of a number, which is kept, back at its place in the list. No kept link above it takes up
    /// its key, and the list with it is chained. No memory is taken. This project's rule.
    pub fn un_lift(&mut self, number: u64)
        requires kept { CanReturn number self.old }
        requires chained { IsTrue (is_chained (put_back number self.old).list) }
        ensures { self.new ≡ put_back number self.old }
    {
        mark(&mut self.slots, number, true);
    }

    /// The root of a key, that of the Trade in which its references end. None where no link takes up the
    /// key, or a Bust does. FIX 4.4 volume 4, ExecRefID(19).
    pub fn root_of(&self, key: &ExecKey) -> Option<ExecKey>
        ensures root { result ≡ root_in self.now.list key.now }
        ensures one_trade { IfSome result (λ root. IsOneTrade self.now.list root) }
    {
        root_on(&self.slots, self.index.cells.takers(key), key)
    }

    /// The number of the last version of the chain of a root, busted or not. None where the key is no root.
    /// This project's rule.
    pub fn current(&self, root: &ExecKey) -> Option<u64>
        ensures { result ≡ current_in self.now.list root.now }
    {
        number_on(&self.slots, self.index.cells.versions(root))
    }

    /// The number of the last version of the chain of a root, where the chain isn't busted. This project's rule.
    pub fn standing_version(&self, root: &ExecKey) -> Option<u64>
        ensures { result ≡ standing_version_in self.now.list root.now }
    {
        standing_at(&self.slots, self.index.cells.get(root)?)
    }

    /// The root of the chain in which the version of a number and key stands: the chain isn't busted, and this is its last version.
    /// None where it doesn't stand. A Trade's key is its root, so its cell tells all. It is looked for at `near` first: the keys have
    /// their cells in the order in which they came. This project's rule.
    pub fn standing_root(&self, number: u64, key: &ExecKey, near: usize) -> Option<ExecKey>
        ensures { result ≡ standing_root_in self.now.list number key.now }
    {
        let cell = self.index.cells.get_near(near, key)?;
        let item = newest_live(&self.slots, cell.takers.as_slice())?;
        let root = item.own_root(key)?;
        let standing = if item.begins() {
            standing_at(&self.slots, cell)
        } else {
            self.standing_version(&root)
        };
        (standing == Some(number)).then_some(root)
    }

    /// The number of the last version of the chain of a root below a number, busted or not. This project's rule.
    pub fn version_before(&self, root: &ExecKey, number: u64) -> Option<u64>
        ensures { result ≡ version_before_in self.now.list number root.now }
    {
        number_below(&self.slots, self.index.cells.versions(root), number)
    }

    /// The number of the first version of the chain of a root above a number. This project's rule.
    pub fn version_after(&self, root: &ExecKey, number: u64) -> Option<u64>
        ensures { result ≡ version_after_in self.now.list number root.now }
    {
        number_above(&self.slots, self.index.cells.versions(root), number)
    }

    /// The number of the first Correct or Bust above the listed link of a number that refers to that link's key. None where
    /// none does, or no link of the number is listed. No memory is taken. This project's rule.
    pub fn first_needing(&self, number: u64) -> Option<u64>
        ensures { result ≡ first_needing_link self.now.list number }
    {
        let item = live_numbered(&self.slots, number)?;
        let Some(key) = self.index.cells.key_at(item.place()) else {
            unreachable!()
        };
        let root = item.root(key);
        lesser(
            referring_at(&self.slots, self.index.cells.versions(root), number, key),
            referring_at(&self.slots, self.index.cells.busts(root), number, key),
        )
    }

    /// The number of the Bust of the chain of a root. None where the chain isn't busted, or the key is no
    /// root. This project's rule.
    pub fn bust_of(&self, root: &ExecKey) -> Option<u64>
        ensures { result ≡ bust_in self.now.list root.now }
    {
        number_on(&self.slots, self.index.cells.busts(root))
    }

    /// The number of the Trade, Correct or Bust that takes up a key. This project's rule.
    pub fn number_of(&self, key: &ExecKey) -> Option<u64>
        ensures { result ≡ taker_in self.now.list key.now }
    {
        number_on(&self.slots, self.index.cells.takers(key))
    }

    // The root of a reference that isn't refused.
    fn chain_of(&self, reference: &ExecKey) -> ExecKey
        requires accepted { exec_refusal self.now.list reference.now ≡ None }
        ensures { root_in self.now.list reference.now ≡ Some result }
    {
        match self.root_of(reference) {
            Some(root) => root,
            None => unreachable!(),
        }
    }

    // Adds a link at the end, with the root of its chain. All room is made before any place is put in; an error may leave a cell without places.
    fn push_link(
        &mut self,
        number: u64,
        key: &ExecKey,
        role: Role,
        root: &ExecKey,
    ) -> Result<(), NoMemory>
        requires accepted { link_refusal self.old.list key.now role ≡ None }
        requires above { IsTrue (is_above_links number self.old.list) }
        requires above_kept { IsTrue (is_above_links number self.old.kept) }
        requires rooted { chain_under self.old.list key.now role ≡ Some root.now }
        ensures ok { OnOk result (Adds number key.now role self.old self.new) }
        ensures kept { self.new.kept ≡ self.old.kept }
        ensures err { OnErr result (self.new ≡ self.old) }
    {
        self.slots.reserve(1)?;
        let at = self.index.reach(self.alloc, key)?;
        let slot = Slot {
            item: ChainLink::new(self.alloc, number, key, role, root, at)?,
            is_live: true,
        };
        let place = self.slots.len();
        self.index.add(self.alloc, key, &slot, place)?;
        self.slots.push_reserved(slot);
        Ok(())
    }

    // Takes the newest link out. It has this key and role, so nothing is compared.
    fn pop_link(&mut self, key: &ExecKey, role: Role)
        requires newest { IsNewest key.now role self.old }
        ensures adds { AddsOne key.now role self.new self.old }
        ensures kept { self.new.kept ≡ self.old.kept }
    {
        let Some(slot) = self.slots.pop() else {
            unreachable!()
        };
        self.index.pop(key, &slot);
    }
}

//! The instructions on allocations: added, taken back, asked.
ghost use Rattle.std.specs.Prelude.{◌≡◌, ◌≤◌, [], length, filter, find, IsSome, IsTrue, OnOk, OnErr, option_copied, option_map};
ghost use Rattle.blot_types.specs.declared.allocation.AllocRole.TheVariants.{Allocates, Replaces, Cancels};
ghost use Rattle.blot_types.specs.Instructions.{alloc_taker_in, is_keyed, is_allocation_in, ended_in, is_live_in, holds_in, holder_in, other_holder_in, may_follow, is_above_instructions, is_instructed, first_instruction, first_naming, first_needing_instruction, names_any};
ghost use Rattle.blot_places.specs.Slots.{numbers_fall};
ghost use Rattle.blot_alloc.specs.Allocs.{roots_in, is_ending, first_after_end, Adds, AddsOne, IsNewest, instruction_at, lifted_out, number_of, put_back};

use crate::index::{Index, naming_above};
use blot_places::{Slot, live_numbered, mark, newest_live};
use blot_types::{AllocKey, AllocRole, ExecKey, Instruction, Items, is_reference, lesser};
use std::alloc::{AllocError as NoMemory, Global};
use std::marker::Model;

/// The instructions on allocations, in the order in which they came, and where those of a key, those that
/// end the allocation of a key, and those that name the chain of a root are among them. An instruction that is lifted out
/// keeps its slot. A contract sees the list and the kept instructions, both newest first. In the list each instruction might
/// follow those before it, and the numbers fall.
#[derive(Drop)]
pub struct Allocs {
    alloc: Global,
    slots: Vec<Slot<Instruction>>,
    index: Index,
}

impl Model for Allocs {
    ghost use Rattle.std.specs.Prelude.{reverse};
    ghost use Rattle.blot_places.specs.Shown.{Shown, shown_of};
    ghost use Rattle.blot_types.specs.declared.allocation.Instruction.{Instruction};
    ghost use Rattle.blot_alloc.specs.Holds.{HoldsAllocs};

    ghost Value = { Shown Instruction };

    ghost view = { λ allocs. shown_of (reverse allocs.slots.items) };

    ghost invariant = { λ allocs. HoldsAllocs allocs.index (reverse allocs.slots.items) };
}

impl Allocs {
    /// No instructions. No memory is taken.
    pub fn new(alloc: Global) -> Allocs
        ensures { result ≡ record { list = []; kept = [] } }
    {
        Allocs {
            alloc,
            slots: Vec::new(alloc),
            index: Index::new(alloc),
        }
    }

    /// Adds an AllocNew, whose allocation names the chains of these roots, none of them twice. Its key is new,
    /// its number above those of all, listed or kept, and no live allocation names one of the chains. Out of memory is the only
    /// error, and then nothing has changed. FIX 4.4 volume 5, AllocTransType(71).
    pub fn admit(
        &mut self,
        number: u64,
        key: &AllocKey,
        roots: Items<ExecKey>,
    ) -> Result<(), NoMemory>
        requires accepted { IsTrue (may_follow self.old.list key.now Allocates roots) }
        requires above { IsTrue (is_above_instructions number self.old.list) }
        requires above_kept { IsTrue (is_above_instructions number self.old.kept) }
        ensures ok { OnOk result (Adds number key.now Allocates roots self.old self.new) }
        ensures kept { self.new.kept ≡ self.old.kept }
        ensures err { OnErr result (self.new ≡ self.old) }
    {
        self.push(number, key, AllocRole::Allocates, roots)
    }

    /// Adds an AllocReplace, whose allocation takes the place of the reference's and names the chains of these
    /// roots, none of them twice. Its key is new, its number above those of all, listed or kept, the reference's allocation is live, and no live
    /// allocation but that names one of the chains. Out of memory is the only error, and then nothing has
    /// changed. FIX 4.4 volume 5, RefAllocID(72).
    pub fn replace(
        &mut self,
        number: u64,
        key: &AllocKey,
        reference: &AllocKey,
        roots: Items<ExecKey>,
    ) -> Result<(), NoMemory>
        requires accepted { IsTrue (may_follow self.old.list key.now (Replaces reference.now) roots) }
        requires above { IsTrue (is_above_instructions number self.old.list) }
        requires above_kept { IsTrue (is_above_instructions number self.old.kept) }
        ensures ok { OnOk result (Adds number key.now (Replaces reference.now) roots self.old self.new) }
        ensures kept { self.new.kept ≡ self.old.kept }
        ensures err { OnErr result (self.new ≡ self.old) }
    {
        self.push(number, key, AllocRole::Replaces(*reference), roots)
    }

    /// Adds an AllocCancel, which ends the reference's allocation. Its key is new, its number above those
    /// of all, listed or kept, and the reference's allocation is live. Out of memory is the only error, and then nothing has
    /// changed. FIX 4.4 volume 5, RefAllocID(72).
    pub fn cancel(
        &mut self,
        number: u64,
        key: &AllocKey,
        reference: &AllocKey,
    ) -> Result<(), NoMemory>
        requires accepted { IsTrue (may_follow self.old.list key.now (Cancels reference.now) []) }
        requires above { IsTrue (is_above_instructions number self.old.list) }
        requires above_kept { IsTrue (is_above_instructions number self.old.kept) }
        ensures ok { OnOk result (Adds number key.now (Cancels reference.now) [] self.old self.new) }
        ensures kept { self.new.kept ≡ self.old.kept }
        ensures err { OnErr result (self.new ≡ self.old) }
    {
        let none = Items::new(Vec::new(self.alloc));
        self.push(number, key, AllocRole::Cancels(*reference), none)
    }

    /// Takes back an AllocNew of this key, the newest instruction. No memory is taken. This project's rule.
    pub fn un_admit(&mut self, key: &AllocKey)
        requires newest { IsNewest key.now Allocates self.old }
        ensures adds { AddsOne key.now Allocates self.new self.old }
        ensures kept { self.new.kept ≡ self.old.kept }
    {
        self.pop(key, AllocRole::Allocates);
    }

    /// Takes back an AllocReplace of this key and reference, the newest instruction. No memory is taken. This
    /// project's rule.
    pub fn un_replace(&mut self, key: &AllocKey, reference: &AllocKey)
        requires newest { IsNewest key.now (Replaces reference.now) self.old }
        ensures adds { AddsOne key.now (Replaces reference.now) self.new self.old }
        ensures kept { self.new.kept ≡ self.old.kept }
    {
        self.pop(key, AllocRole::Replaces(*reference));
    }

    /// Takes back an AllocCancel of this key and reference, the newest instruction. No memory is taken. This
    /// project's rule.
    pub fn un_cancel(&mut self, key: &AllocKey, reference: &AllocKey)
        requires newest { IsNewest key.now (Cancels reference.now) self.old }
        ensures adds { AddsOne key.now (Cancels reference.now) self.new self.old }
        ensures kept { self.new.kept ≡ self.old.kept }
    {
        self.pop(key, AllocRole::Cancels(*reference));
    }

    /// Lifts the instruction of a number out of the list, whatever came later, and keeps its slot: put back, it stands where it
    /// stood. It is listed, and without it each instruction might follow those before it. No memory is taken. This project's rule.
    pub fn lift(&mut self, number: u64)
        requires listed { IsSome (instruction_at number self.old.list) }
        requires instructed { IsTrue (is_instructed (lifted_out number self.old).list) }
        ensures lifted { self.new ≡ lifted_out number self.old }
        ensures back { put_back number self.new ≡ self.old }
    {
        mark(&mut self.slots, number, false);
    }

    /// Puts the instruction of a number, which is kept, back at its place in the list. With it each instruction might follow
    /// those before it. No memory is taken. This project's rule.
    pub fn un_lift(&mut self, number: u64)
        requires kept { IsSome (instruction_at number self.old.kept) }
        requires instructed { IsTrue (is_instructed (put_back number self.old).list) }
        ensures { self.new ≡ put_back number self.old }
    {
        mark(&mut self.slots, number, true);
    }

    /// The number of the live allocation that names the chain of a root. There is at most one. This project's
    /// rule.
    pub fn holder_of(&self, root: &ExecKey) -> Option<u64>
        ensures holder { result ≡ holder_in self.now.list root.now }
        ensures once { length (filter (holds_in self.now.list root.now) self.now.list) ≤ 1 }
    {
        self.holder(root).map(|instruction| instruction.number)
    }

    /// The number of the live allocation that names the chain of a root, other than the one referred to. This
    /// project's rule.
    pub fn other_holder_of(&self, reference: Option<AllocKey>, root: &ExecKey) -> Option<u64>
        ensures { result ≡ other_holder_in self.now.list reference root.now }
    {
        let holder = self.holder(root)?;
        if is_reference(reference, &holder.key) {
            return None;
        }
        Some(holder.number)
    }

    /// The number of the instruction that takes up a key. This project's rule.
    pub fn number_of(&self, key: &AllocKey) -> Option<u64>
        ensures { result ≡ alloc_taker_in self.now.list key.now }
    {
        self.taker(key).map(|instruction| instruction.number)
    }

    /// The roots of the chains that the instruction which takes up a key lists. This project's rule.
    pub fn roots_of(&self, key: &AllocKey) -> Option<&[ExecKey]>
        ensures { option_map (λ roots. roots.now) result ≡ roots_in self.now.list key.now }
    {
        self.taker(key)
            .map(|instruction| instruction.roots.as_slice())
    }

    /// The number of the instruction that replaced or cancelled the allocation of a key. This project's rule.
    pub fn ended_by(&self, key: &AllocKey) -> Option<u64>
        ensures { result ≡ ended_in self.now.list key.now }
    {
        self.ending(key).map(|instruction| instruction.number)
    }

    /// The number of the first instruction above a number that lists an execution of the chain of a root: the least such
    /// number, since the numbers fall from the newest instruction to the oldest. No memory is taken. This project's rule.
    pub fn first_naming(&self, root: &ExecKey, number: u64) -> Option<u64>
        ensures first { result ≡ first_naming self.now.list number root.now }
        ensures fall { IsTrue (numbers_fall number_of self.now.list) }
    {
        naming_above(&self.slots, &self.index.holders, root, number)
    }

    /// The number of the first instruction above the listed one of a number that needs it: it refers to its allocation, or lists
    /// an execution of a chain that the allocation names which that one ended. None where none does, or no instruction of the
    /// number is listed. No memory is taken. This project's rule.
    pub fn first_needing(&self, number: u64) -> Option<u64>
        ensures { result ≡ first_needing_instruction self.now.list number }
    {
        let instruction = live_numbered(&self.slots, number)?;
        lesser(
            self.ended_by(&instruction.key),
            self.first_after_end(&instruction.role, number),
        )
    }

    /// Whether there is an allocation of this key, live or ended: whether an AllocNew or an AllocReplace takes
    /// it up. This project's rule.
    pub fn is_allocation(&self, key: &AllocKey) -> bool
        ensures { result ≡ is_allocation_in self.now.list key.now }
    {
        match self.taker(key) {
            Some(instruction) => instruction.role.brings_allocation(),
            None => false,
        }
    }

    // The number of the first instruction above a number that lists an execution of a chain that the allocation names which an
    // instruction of this role ended.
    fn first_after_end(&self, role: &AllocRole, number: u64) -> Option<u64>
        ensures { result ≡ first_after_end self.now.list role.now number }
    {
        let reference = role.reference()?;
        let roots = self.roots_of(&reference)?;
        self.first_naming_any(roots, number)
    }

    // The number of the first instruction above a number that lists an execution of the chain of one of these roots.
    fn first_naming_any(&self, roots: &[ExecKey], number: u64) -> Option<u64>
        ensures { result ≡ first_instruction (names_any roots.now) number self.now.list }
    {
        let mut first = None;
        for root in roots {
            first = lesser(first, self.first_naming(root, number));
        }
        first
    }

    // The instruction that takes up a key.
    fn taker(&self, key: &AllocKey) -> Option<&Instruction>
        ensures found { option_copied result ≡ find (is_keyed key.now) self.now.list }
        ensures once { length (filter (is_keyed key.now) self.now.list) ≤ 1 }
    {
        newest_live(&self.slots, self.index.takers.under(key))
    }

    // The instruction that ended the allocation of a key.
    fn ending(&self, key: &AllocKey) -> Option<&Instruction>
        ensures { option_copied result ≡ find (is_ending key.now) self.now.list }
    {
        newest_live(&self.slots, self.index.endings.under(key))
    }

    // The instruction whose allocation is live and names the chain of a root. Only the newest that names it can
    // be this one: when that came, no other allocation that named the chain stayed live.
    fn holder(&self, root: &ExecKey) -> Option<&Instruction>
        ensures found { option_copied result ≡ find (holds_in self.now.list root.now) self.now.list }
        ensures once { length (filter (holds_in self.now.list root.now) self.now.list) ≤ 1 }
    {
        let newest = newest_live(&self.slots, self.index.holders.under(root))?;
        if !self.is_live(newest) {
            return None;
        }
        Some(newest)
    }

    // Whether an instruction's allocation is live: whether it brings one, and none ended that.
    fn is_live(&self, instruction: &Instruction) -> bool
        ensures { result ≡ is_live_in self.now.list instruction.now }
    {
        instruction.role.brings_allocation() && self.ended_by(&instruction.key).is_none()
    }

    // Puts an instruction after the others. All room is made before anything changes.
    fn push(
        &mut self,
        number: u64,
        key: &AllocKey,
        role: AllocRole,
        roots: Items<ExecKey>,
    ) -> Result<(), NoMemory>
        requires accepted { IsTrue (may_follow self.old.list key.now role roots) }
        requires above { IsTrue (is_above_instructions number self.old.list) }
        requires above_kept { IsTrue (is_above_instructions number self.old.kept) }
        ensures ok { OnOk result (Adds number key.now role roots self.old self.new) }
        ensures kept { self.new.kept ≡ self.old.kept }
        ensures err { OnErr result (self.new ≡ self.old) }
    {
        self.slots.reserve(1)?;
        self.index
            .make_room(self.alloc, key, &role, roots.as_slice())?;
        let item = Instruction {
            number,
            key: *key,
            role,
            roots,
        };
        let slot = Slot {
            item,
            is_live: true,
        };
        let place = self.slots.len();
        self.index.push(&slot, place);
        self.slots.push_reserved(slot);
        Ok(())
    }

    // Takes the newest instruction out. It has this key and role, so nothing is compared.
    fn pop(&mut self, key: &AllocKey, role: AllocRole)
        requires newest { IsNewest key.now role self.old }
        ensures adds { AddsOne key.now role self.new self.old }
        ensures kept { self.new.kept ≡ self.old.kept }
    {
        match self.slots.pop() {
            Some(slot) => self.index.pop(&slot),
            None => unreachable!(),
        }
    }
}

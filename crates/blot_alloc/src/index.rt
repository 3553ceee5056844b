//! Where the instructions that take up a key, that end the allocation of a key, and that name the chain of a
//! root are.
ghost use Rattle.std.specs.Prelude.{◌≡◌, [], IfSome, IsTrue, OnOk, option_map};
ghost use Rattle.blot_places.specs.Indexed.{NamesOneLess, NamesOneMore, NamesSame};
ghost use Rattle.blot_places.specs.Places.{HasRoom, PutsPlace, SamePlaces, TakesPlace};
ghost use Rattle.blot_places.specs.Slots.{UpToFirst, oldest_above};
ghost use Rattle.blot_types.specs.Instructions.{are_apart, ends, reference_of};
ghost use Rattle.blot_types.specs.Keys.{same_alloc};
ghost use Rattle.blot_alloc.specs.Allocs.{number_of};
ghost use Rattle.blot_alloc.specs.Index.{HasRoomFor, HasRoomForSlot, IsIndexed, stack_under};

use crate::roots;
use blot_places::{Places, Slot, oldest_live, places_above};
use blot_types::{AllocKey, AllocRole, ExecKey, Instruction};
use std::alloc::{AllocError as NoMemory, Global};

/// The places of the instructions: by the key that one takes up, by that of the allocation that it ends, and
/// by each root that it lists. It doesn't say which are live.
#[derive(Drop)]
pub(crate) struct Index {
    pub(crate) takers: Places<AllocKey>,
    pub(crate) endings: Places<AllocKey>,
    pub(crate) holders: Places<ExecKey>,
}

impl Index {
    /// Of no instructions. No memory is taken.
    pub(crate) fn new(alloc: Global) -> Index
        ensures { IsIndexed result [] }
    {
        Index {
            takers: Places::new(alloc),
            endings: Places::new(alloc),
            holders: Places::new(alloc),
        }
    }

    /// Makes room for the place of one more instruction. An error leaves what is indexed.
    pub(crate) fn make_room(
        &mut self,
        alloc: Global,
        key: &AllocKey,
        role: &AllocRole,
        roots: &[ExecKey],
    ) -> Result<(), NoMemory>
        ensures same { NamesSame IsIndexed self.old self.new }
        ensures room { OnOk result (HasRoomFor self.new key.now role.now roots.now) }
    {
        self.takers.make_room(alloc, key)?;
        make_ending_room(&mut self.endings, alloc, role)?;
        roots::make_room(&mut self.holders, alloc, roots)
    }

    /// Puts in the place of one more slot, after the others.
    pub(crate) fn push(&mut self, slot: &Slot<Instruction>, place: usize)
        requires room { HasRoomForSlot self.old slot.now }
        requires apart { IsTrue (are_apart slot.now.item.roots) }
        ensures { NamesOneMore IsIndexed slot.now place self.old self.new }
    {
        self.takers.push(&slot.item.key, place);
        push_ending(&mut self.endings, &slot.item.role, place);
        roots::push(&mut self.holders, slot.item.roots.as_slice(), place);
    }

    /// Takes out the place of the newest slot.
    pub(crate) fn pop(&mut self, slot: &Slot<Instruction>)
        requires apart { IsTrue (are_apart slot.now.item.roots) }
        ensures { NamesOneLess IsIndexed slot.now self.old self.new }
    {
        self.takers.pop(&slot.item.key);
        pop_ending(&mut self.endings, &slot.item.role);
        roots::pop(&mut self.holders, slot.item.roots.as_slice());
    }
}

/// The number of the oldest live instruction above a number, among the places under a root.
pub(crate) fn naming_above(
    slots: &[Slot<Instruction>],
    holders: &Places<ExecKey>,
    root: &ExecKey,
    number: u64,
) -> Option<u64>
    requires { UpToFirst number_of number slots.now (stack_under holders.now root.now) }
    ensures { result ≡ option_map number_of (oldest_above number_of number slots.now (stack_under holders.now root.now)) }
{
    let stack = places_above(slots, holders.under(root), number);
    oldest_live(slots, stack).map(|instruction| instruction.number)
}

// Makes room for one more place under the key of the allocation that an instruction of this role ends, if it
// ends one.
fn make_ending_room(
    endings: &mut Places<AllocKey>,
    alloc: Global,
    role: &AllocRole,
) -> Result<(), NoMemory>
    ensures same { SamePlaces same_alloc endings.old endings.new }
    ensures room { OnOk result (IfSome (reference_of role.now) (HasRoom same_alloc endings.new)) }
{
    match role {
        AllocRole::Allocates => Ok(()),
        AllocRole::Replaces(reference) | AllocRole::Cancels(reference) => {
            endings.make_room(alloc, reference)
        }
    }
}

// Puts a place under the key of the allocation that an instruction of this role ends.
fn push_ending(endings: &mut Places<AllocKey>, role: &AllocRole, place: usize)
    requires { IfSome (reference_of role.now) (HasRoom same_alloc endings.old) }
    ensures { PutsPlace same_alloc (λ key. ends key role.now) place endings.old endings.new }
{
    match role {
        AllocRole::Allocates => {}
        AllocRole::Replaces(reference) | AllocRole::Cancels(reference) => {
            endings.push(reference, place);
        }
    }
}

// Takes the newest place off the stack of the allocation that an instruction of this role ends.
fn pop_ending(endings: &mut Places<AllocKey>, role: &AllocRole)
    ensures { TakesPlace same_alloc (λ key. ends key role.now) endings.old endings.new }
{
    match role {
        AllocRole::Allocates => {}
        AllocRole::Replaces(reference) | AllocRole::Cancels(reference) => endings.pop(reference),
    }
}

//! Where the slots of a key, and of the chain of a root, are.
ghost use Rattle.std.specs.Prelude.{◌≡◌, [], Some, IfOk, IfSome, OnOk, OnErr, option_and_then, option_map};
ghost use Rattle.blot_places.specs.Indexed.{NamesOneLess, NamesOneMore, NamesSame};
ghost use Rattle.blot_places.specs.Slots.{BelowFirst, UpToFirst, oldest_above};
ghost use Rattle.blot_types.specs.Refusals.{first_of};
ghost use Rattle.blot_chain.specs.Cells.{key_at};
ghost use Rattle.blot_chain.specs.ChainLinks.{kept_root, link_number};
ghost use Rattle.blot_chain.specs.Index.{IsIndexed, IsPlaced, newest_below, newest_on, number_if_referring, referring_at, standing_at};

use crate::cell::{Cell, Relation};
use crate::cells::Cells;
use crate::chain_link::ChainLink;
use blot_places::{Slot, live_at, newest_live, oldest_live, places_above, places_below};
use blot_types::{ExecKey, Numbered};
use std::alloc::{AllocError as NoMemory, Global};

/// The places of the slots: by the key that a link takes up, and by the root of the chain that it brings a
/// version to, or busts. It doesn't say which slots are live.
#[derive(Drop)]
pub(crate) struct Index {
    pub(crate) cells: Cells<ExecKey>,
}

impl Index {
    /// Of no slots. No memory is taken.
    pub(crate) fn new(alloc: Global) -> Index
        ensures { IsIndexed result [] }
    {
        Index {
            cells: Cells::new(alloc),
        }
    }

    /// The place of the cell of a key, which is made where there is none. What is indexed stays.
    pub(crate) fn reach(&mut self, alloc: Global, key: &ExecKey) -> Result<usize, NoMemory>
        ensures place { IfOk result (λ place. key_at self.new.cells place ≡ Some key.now) }
        ensures same { NamesSame IsIndexed self.old self.new }
    {
        self.cells.reach(alloc, key)
    }

    /// Puts in the place of one more slot of this key, after the others. All room is made before any place is put in, and an error
    /// leaves what is indexed. A Trade's key is its root, so it has one cell.
    pub(crate) fn add(
        &mut self,
        alloc: Global,
        key: &ExecKey,
        slot: &Slot<ChainLink>,
        place: usize,
    ) -> Result<(), NoMemory>
        requires key { key.now ≡ slot.now.item.link.key }
        requires placed { IsPlaced self.old.cells slot.now.item }
        ensures ok { OnOk result (NamesOneMore IsIndexed slot.now place self.old self.new) }
        ensures err { OnErr result (NamesSame IsIndexed self.old self.new) }
    {
        let item = &slot.item;
        if item.begins() {
            return self.cells.add(item.place(), Relation::First, place);
        }
        self.cells.make_taker_room(item.place())?;
        let chain = self.cells.reach(alloc, item.root(key))?;
        self.cells.add(chain, item.relation_in_chain(), place)?;
        self.cells.push_taker(item.place(), place);
        Ok(())
    }

    /// Takes out the place of the newest slot, which is of this key.
    pub(crate) fn pop(&mut self, key: &ExecKey, slot: &Slot<ChainLink>)
        requires { key.now ≡ slot.now.item.link.key }
        ensures { NamesOneLess IsIndexed slot.now self.old self.new }
    {
        let item = &slot.item;
        if item.begins() {
            return self.cells.pop(key, Relation::First);
        }
        self.cells.pop(key, Relation::Taker);
        self.cells.pop(item.root(key), item.relation_in_chain());
    }
}

/// The number of the newest live link on a stack.
pub(crate) fn number_on(slots: &[Slot<ChainLink>], stack: &[usize]) -> Option<u64>
    ensures { result ≡ option_map link_number (newest_on slots.now stack.now) }
{
    newest_live(slots, stack).map(|item| item.number())
}

/// The number of the last version of a root's chain, where no Bust ended it, as the root's cell tells.
pub(crate) fn standing_at(slots: &[Slot<ChainLink>], cell: &Cell) -> Option<u64>
    ensures { result ≡ standing_at slots.now cell.now }
{
    if newest_live(slots, cell.busts.as_slice()).is_some() {
        return None;
    }
    number_on(slots, cell.versions.as_slice())
}

/// The number of the newest live link below a number, on a stack.
pub(crate) fn number_below(slots: &[Slot<ChainLink>], stack: &[usize], number: u64) -> Option<u64>
    requires { BelowFirst link_number number slots.now stack.now }
    ensures { result ≡ option_map link_number (newest_below number slots.now stack.now) }
{
    newest_live(slots, places_below(slots, stack, number)).map(|item| item.number())
}

/// The number of the oldest live link above a number, on a stack.
pub(crate) fn number_above(slots: &[Slot<ChainLink>], stack: &[usize], number: u64) -> Option<u64>
    requires { UpToFirst link_number number slots.now stack.now }
    ensures { result ≡ option_map link_number (oldest_above link_number number slots.now stack.now) }
{
    oldest_live(slots, places_above(slots, stack, number)).map(|item| item.number())
}

/// The number of the oldest live link above a number, on a stack, that refers to a key.
pub(crate) fn referring_at(
    slots: &[Slot<ChainLink>],
    stack: &[usize],
    number: u64,
    key: &ExecKey,
) -> Option<u64>
    requires { UpToFirst link_number number slots.now stack.now }
    ensures { result ≡ referring_at slots.now stack.now number key.now }
{
    first_referring(slots, places_above(slots, stack, number), key)
}

// The number of the first live link at these places that refers to a key.
fn first_referring(slots: &[Slot<ChainLink>], places: &[usize], key: &ExecKey) -> Option<u64>
    ensures { result ≡ first_of (number_if_referring slots.now key.now) places.now }
{
    for place in places {
        if let Some(number) = number_if_referring(slots, *place, key) {
            return Some(number);
        }
    }
    None
}

// The number of the link at a place, if it is live and refers to a key.
fn number_if_referring(slots: &[Slot<ChainLink>], place: usize, key: &ExecKey) -> Option<u64>
    ensures { result ≡ number_if_referring slots.now key.now place }
{
    let item = live_at(slots, place)?;
    if item.refers_to(key) {
        Some(item.number())
    } else {
        None
    }
}

/// The root of a key, as the newest live link on the stack of those that take it up tells.
pub(crate) fn root_on(slots: &[Slot<ChainLink>], stack: &[usize], key: &ExecKey) -> Option<ExecKey>
    requires { IfSome (newest_on slots.now stack.now) (λ item. key.now ≡ item.link.key) }
    ensures { result ≡ option_and_then kept_root (newest_on slots.now stack.now) }
{
    newest_live(slots, stack)?.own_root(key)
}

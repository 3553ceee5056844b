//! The cells of all keys.
ghost use Rattle.std.specs.Prelude.{◌≡◌, [], false, reverse, IfOk, IsSome, IsTrue, OnOk, OnErr, option_copied, IsSomeAnd};
ghost use Rattle.std.specs.Map.{lookup};
ghost use Rattle.blot_chain.specs.declared.cell.Relation.TheVariants.{Taker};
ghost use Rattle.blot_chain.specs.Cells.{HasTakerRoom, KeepsPlaces, KeepsTakerRoom, PutsAt, SameUnder, TakesUnder, busts_in, has_taker, key_at, takers_in, versions_in};

use crate::cell::{Cell, Relation};
use indexmap::IndexMap;
use std::alloc::{AllocError as NoMemory, Global};
use std::hash::Hash;
use std::marker::Model;

/// A cell for each key, with three stacks of places. A key that was there once keeps its cell, which
/// stays at its place.
#[derive(Drop)]
pub(crate) struct Cells<K: Eq + Hash> {
    cells: IndexMap<K, Cell>,
}

impl<K: Eq + Hash> Model for Cells<K> {
    ghost use Rattle.blot_chain.specs.Cells.{CellsByKey};

    ghost Value = { CellsByKey K };

    ghost view = { λ cells. record { cells = cells.cells.entries } };
}

impl<K: Eq + Hash + Copy> Cells<K> {
    /// No places. No memory is taken.
    pub(crate) fn new(alloc: Global) -> Cells<K>
        ensures takers { (key : K) → takers_in K.eq result key ≡ [] }
        ensures versions { (key : K) → versions_in K.eq result key ≡ [] }
        ensures busts { (key : K) → busts_in K.eq result key ≡ [] }
    {
        Cells {
            cells: IndexMap::new(alloc),
        }
    }

    /// The place of the cell of a key, which is made where there is none. No place of a link comes or goes.
    pub(crate) fn reach(&mut self, alloc: Global, key: &K) -> Result<usize, NoMemory>
        ensures place { IfOk result (λ place. IsSomeAnd (key_at self.new place) (λ there. IsTrue (K.eq key.now there))) }
        ensures same { SameUnder K.eq self.old self.new }
        ensures places { KeepsPlaces self.old self.new }
        ensures room { KeepsTakerRoom self.old self.new }
    {
        let entry = self.cells.entry(*key)?;
        let place = entry.index();
        entry.or_insert(Cell::new(alloc));
        Ok(place)
    }

    /// Puts in the place of a link that has this relation to the key whose cell is at a place. An error leaves the places.
    pub(crate) fn add(
        &mut self,
        at: usize,
        relation: Relation,
        place: usize,
    ) -> Result<(), NoMemory>
        requires { IsSome (key_at self.old at) }
        ensures ok { OnOk result (PutsAt K.eq relation at place self.old self.new) }
        ensures err { OnErr result (SameUnder K.eq self.old self.new) }
        ensures places { KeepsPlaces self.old self.new }
        ensures room { has_taker relation ≡ false → KeepsTakerRoom self.old self.new }
    {
        match self.cells.get_index_mut(at) {
            Some(cell) => cell.add(relation, place),
            None => unreachable!(),
        }
    }

    /// Makes room for the place of one more link that takes up the key whose cell is at a place. No place of a link comes or goes.
    pub(crate) fn make_taker_room(&mut self, at: usize) -> Result<(), NoMemory>
        requires { IsSome (key_at self.old at) }
        ensures same { SameUnder K.eq self.old self.new }
        ensures places { KeepsPlaces self.old self.new }
        ensures room { OnOk result (HasTakerRoom self.new at) }
    {
        match self.cells.get_index_mut(at) {
            Some(cell) => cell.takers.make_room(),
            None => unreachable!(),
        }
    }

    /// Puts in the place of a link that takes up the key whose cell is at a place. No memory is taken.
    pub(crate) fn push_taker(&mut self, at: usize, place: usize)
        requires { HasTakerRoom self.old at }
        ensures puts { PutsAt K.eq Taker at place self.old self.new }
        ensures places { KeepsPlaces self.old self.new }
    {
        match self.cells.get_index_mut(at) {
            Some(cell) => cell.takers.push(place),
            None => unreachable!(),
        }
    }

    /// Takes out the newest place of the links that have this relation to a key, if there is one. No memory is taken.
    pub(crate) fn pop(&mut self, key: &K, relation: Relation)
        ensures takes { TakesUnder K.eq relation key.now self.old self.new }
        ensures places { KeepsPlaces self.old self.new }
    {
        let Some(cell) = self.cells.get_mut(key) else {
            return;
        };
        cell.pop(relation);
    }

    /// The key whose cell is at a place.
    pub(crate) fn key_at(&self, place: usize) -> Option<&K>
        ensures { option_copied result ≡ key_at self.now place }
    {
        match self.cells.get_index(place) {
            Some((key, _)) => Some(key),
            None => None,
        }
    }

    /// The cell of a key, if the key was there once.
    pub(crate) fn get(&self, key: &K) -> Option<&Cell>
        ensures { option_copied result ≡ lookup (K.eq key.now) self.now.cells }
    {
        self.cells.get(key)
    }

    /// The same; it is looked for at this place first, and needs no look-up where it is there.
    pub(crate) fn get_near(&self, place: usize, key: &K) -> Option<&Cell>
        ensures { option_copied result ≡ lookup (K.eq key.now) self.now.cells }
    {
        match self.cells.get_index(place) {
            Some((there, cell)) if *key == *there => Some(cell),
            _ => self.cells.get(key),
        }
    }

    /// The places of the links that take up a key, the newest last.
    pub(crate) fn takers(&self, key: &K) -> &[usize]
        ensures { reverse result.now ≡ takers_in K.eq self.now key.now }
    {
        match self.cells.get(key) {
            Some(cell) => cell.takers.as_slice(),
            None => &[],
        }
    }

    /// The places of the versions of a key's chain, the newest last.
    pub(crate) fn versions(&self, key: &K) -> &[usize]
        ensures { reverse result.now ≡ versions_in K.eq self.now key.now }
    {
        match self.cells.get(key) {
            Some(cell) => cell.versions.as_slice(),
            None => &[],
        }
    }

    /// The places of the Busts of a key's chain, the newest last.
    pub(crate) fn busts(&self, key: &K) -> &[usize]
        ensures { reverse result.now ≡ busts_in K.eq self.now key.now }
    {
        match self.cells.get(key) {
            Some(cell) => cell.busts.as_slice(),
            None => &[],
        }
    }
}

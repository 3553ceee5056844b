//! Stacks of places by key.
ghost use Rattle.std.specs.Prelude.{◌≡◌, [], reverse, OnOk};
ghost use Rattle.blot_places.specs.Places.{HasRoom, KeepsOtherRoom, KeepsRoom, PutsPlace, SamePlaces, TakesPlace, places_in};

use crate::Stack;
use indexmap::IndexMap;
use std::alloc::{AllocError as NoMemory, Global};
use std::hash::Hash;
use std::marker::Model;

/// Under each key a stack of places. A key that was there once stays, with its room. A contract sees the
/// places of each key, newest first, and for how many more there is room.
#[derive(Drop)]
pub struct Places<K: Eq + Hash> {
    stacks: IndexMap<K, Stack>,
}

impl<K: Eq + Hash> Model for Places<K> {
    ghost use Rattle.blot_places.specs.Places.{Stacks};

    ghost Value = { Stacks K };

    ghost view = { λ places. record { cells = places.stacks.entries } };
}

impl<K: Eq + Hash + Copy> Places<K> {
    /// No places. No memory is taken.
    pub fn new(alloc: Global) -> Places<K>
        ensures { (key : K) → places_in K.eq result key ≡ [] }
    {
        Places {
            stacks: IndexMap::new(alloc),
        }
    }

    /// Makes room for one more place under a key. No place comes or goes, and an error is out of memory.
    pub fn make_room(&mut self, alloc: Global, key: &K) -> Result<(), NoMemory>
        ensures same { SamePlaces K.eq self.old self.new }
        ensures room { OnOk result (HasRoom K.eq self.new key.now) }
        ensures kept { OnOk result (KeepsRoom K.eq self.old self.new) }
    {
        let entry = self.stacks.entry(*key)?;
        entry.or_insert(Stack::new(alloc)).make_room()
    }

    /// Puts a place on the stack of a key. No memory is taken.
    pub fn push(&mut self, key: &K, place: usize)
        requires room { HasRoom K.eq self.old key.now }
        ensures places { PutsPlace K.eq (K.eq key.now) place self.old self.new }
        ensures kept { KeepsOtherRoom K.eq key.now self.old self.new }
    {
        let Some(stack) = self.stacks.get_mut(key) else {
            unreachable!()
        };
        stack.push(place);
    }

    /// Takes the newest place off the stack of a key, if there is one. No memory is taken.
    pub fn pop(&mut self, key: &K)
        ensures { TakesPlace K.eq (K.eq key.now) self.old self.new }
    {
        let Some(stack) = self.stacks.get_mut(key) else {
            return;
        };
        stack.pop();
    }

    /// The places under a key, the newest last.
    pub fn under(&self, key: &K) -> &[usize]
        ensures { reverse result.now ≡ places_in K.eq self.now key.now }
    {
        match self.stacks.get(key) {
            Some(stack) => stack.as_slice(),
            None => &[],
        }
    }
}

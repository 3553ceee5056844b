//! The places under one key.
ghost use Rattle.std.specs.Prelude.{◌≡◌, [], ◌∷◌, false, OnOk, OnErr};
ghost use Rattle.blot_chain.specs.Cells.{HasMore, HasOneLess, HasSame, has_taker};

use blot_places::Stack;
use std::alloc::{AllocError as NoMemory, Global};

/// What a link is to a key. A Trade takes its key up, and brings the first version to the chain whose root that is. A Correct and a
/// Bust take up theirs, and to the key of their root they are a version, or the Bust.
#[derive(Clone, Copy)]
pub(crate) enum Relation {
    First,
    Taker,
    Version,
    Bust,
}

/// The places under a key: those of the links that take it up, and of the versions and the Busts of its chain, if it is a root.
#[derive(Drop)]
pub(crate) struct Cell {
    pub(crate) takers: Stack,
    pub(crate) versions: Stack,
    pub(crate) busts: Stack,
}

impl Cell {
    /// No places. No memory is taken.
    pub(crate) fn new(alloc: Global) -> Cell
        ensures takers { result.takers.places ≡ [] }
        ensures versions { result.versions.places ≡ [] }
        ensures busts { result.busts.places ≡ [] }
    {
        Cell {
            takers: Stack::new(alloc),
            versions: Stack::new(alloc),
            busts: Stack::new(alloc),
        }
    }

    /// Puts in the place of a link that has this relation to the key. All room is made before, and an error leaves the places.
    pub(crate) fn add(&mut self, relation: Relation, place: usize) -> Result<(), NoMemory>
        ensures ok { OnOk result (HasMore relation place self.old self.new) }
        ensures err { OnErr result (HasSame self.old self.new) }
        ensures kept { has_taker relation ≡ false → self.new.takers ≡ self.old.takers }
    {
        match relation {
            Relation::First => {
                self.takers.make_room()?;
                add_place(&mut self.versions, place)?;
                self.takers.push(place);
                Ok(())
            }
            Relation::Taker => add_place(&mut self.takers, place),
            Relation::Version => add_place(&mut self.versions, place),
            Relation::Bust => add_place(&mut self.busts, place),
        }
    }

    /// Takes out the newest place of the links that have this relation to the key.
    pub(crate) fn pop(&mut self, relation: Relation)
        ensures { HasOneLess relation self.old self.new }
    {
        match relation {
            Relation::First => {
                self.takers.pop();
                self.versions.pop();
            }
            Relation::Taker => self.takers.pop(),
            Relation::Version => self.versions.pop(),
            Relation::Bust => self.busts.pop(),
        }
    }
}

// Puts a place on a stack. An error leaves its places.
fn add_place(stack: &mut Stack, place: usize) -> Result<(), NoMemory>
    ensures ok { OnOk result (stack.new.places ≡ place ∷ stack.old.places) }
    ensures err { OnErr result (stack.new ≡ stack.old) }
{
    stack.make_room()?;
    stack.push(place);
    Ok(())
}

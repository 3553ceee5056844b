//! A stack of places.
ghost use Rattle.std.specs.Prelude.{◌≡◌, ◌<◌, [], ◌∷◌, drop, reverse, OnOk, OnErr};

use smallvec::SmallVec;
use std::alloc::{AllocError as NoMemory, Global};
use std::marker::Model;

// As many as make the value no larger than one does.
const INLINE_PLACES: usize = 2;

/// A stack of places. Up to two lie in the value itself, and more on the heap, since nearly always there is one. A contract sees the
/// places, newest first, and for how many more there is room.
#[derive(Drop)]
pub struct Stack {
    places: SmallVec<usize, INLINE_PLACES>,
}

impl Model for Stack {
    ghost use Rattle.std.specs.Prelude.{◌-◌, length, reverse};
    ghost use Rattle.blot_places.specs.Stack.{Stack};

    ghost Value = { Stack };

    ghost view = { λ stack. record { places = reverse stack.places.items; room = stack.places.capacity - length stack.places.items } };
}

impl Stack {
    /// No places, and room for the first. No memory is taken.
    pub fn new(alloc: Global) -> Stack
        ensures places { result.places ≡ [] }
        ensures room { 0 < result.room }
    {
        Stack {
            places: SmallVec::new(alloc),
        }
    }

    /// Makes room for one more place. An error is out of memory, and changes nothing.
    pub fn make_room(&mut self) -> Result<(), NoMemory>
        ensures places { self.new.places ≡ self.old.places }
        ensures room { OnOk result (0 < self.new.room) }
        ensures err { OnErr result (self.new ≡ self.old) }
    {
        self.places.reserve(1)
    }

    /// Puts a place on the stack. No memory is taken.
    pub fn push(&mut self, place: usize)
        requires { 0 < self.old.room }
        ensures { self.new.places ≡ place ∷ self.old.places }
    {
        self.places.push_reserved(place);
    }

    /// Takes the newest place off the stack, if there is one. No memory is taken.
    pub fn pop(&mut self)
        ensures { self.new.places ≡ drop 1 self.old.places }
    {
        self.places.pop();
    }

    /// The places, the newest last.
    pub fn as_slice(&self) -> &[usize]
        ensures { reverse result.now ≡ self.now.places }
    {
        self.places.as_slice()
    }
}

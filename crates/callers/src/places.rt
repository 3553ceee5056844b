//! A small map: each command puts a value at one of a few places.

use blot_command::Undoable;

/// How many places there are.
pub const PLACES: usize = 4;

/// Puts a value at a place.
#[derive(Clone, Copy, Debug, PartialEq, Eq)]
pub struct Put {
    pub place: usize,
    pub value: u64,
}

/// What a place held before.
#[derive(Clone, Copy, Debug, PartialEq, Eq)]
pub struct Was {
    pub place: usize,
    pub value: Option<u64>,
}

/// Why a value isn't put.
#[derive(Clone, Copy, Debug, PartialEq, Eq)]
pub enum PutFault {
    /// There is no such place.
    NoPlace,
    /// Memory ran out: it never does.
    NoMemory,
}

impl Undoable for Put {
    ghost use Rattle.std.specs.Prelude.{ℕ, List, Option};
    ghost use Rattle.callers.specs.Places.{put_meaning, put_lawful};

    type State = [Option<u64>; PLACES];

    type Inverse = Was;

    type Refusal = PutFault;

    ghost Live = { List (Option ℕ) };

    ghost meaning = { put_meaning };

    ghost lawful = { put_lawful };

    fn apply(
        self,
        places: &mut [Option<u64>; PLACES],
        _number: u64,
    ) -> Result<Was, (Put, PutFault)> {
        let Put { place, value } = self;
        if place >= PLACES {
            return Err((self, PutFault::NoPlace));
        }
        let was = Was {
            place,
            value: places[place],
        };
        places[place] = Some(value);
        Ok(was)
    }

    fn revert(was: Was, places: &mut [Option<u64>; PLACES]) -> Put {
        let Was { place, value } = was;
        match places[place] {
            Some(put) => {
                places[place] = value;
                Put { place, value: put }
            }
            None => unreachable!(),
        }
    }
}

//! Why a line asks nothing.

use std::alloc::AllocError as NoMemory;
use std::error::Error;
use std::fmt;

/// Why a line asks nothing: the first of `TooLong`, `UnknownWord`, `WrongCount`, `BadValue` and `NoMemory` that applies.
/// This project's rule.
#[derive(Clone, Copy, Debug, PartialEq, Eq)]
pub enum LineFault {
    /// The first word names no line.
    UnknownWord,
    /// The words are too few or too many.
    WrongCount,
    /// The word at this place is bad, and no word at a lesser place is; the word after the first stands at 1.
    BadValue(usize),
    /// The line is over 65,536 bytes long.
    TooLong,
    /// There was no memory for an ask without a fault.
    NoMemory,
}

impl LineFault {
    ghost use Rattle.std.specs.Prelude.{◌≡◌};
    ghost use Rattle.blot_console.specs.FaultText.{fault_number};

    /// The number under which a fault is told. This project's rule.
    pub fn number(self) -> u8
        ensures { result ≡ fault_number self }
    {
        match self {
            LineFault::UnknownWord => 1,
            LineFault::WrongCount => 2,
            LineFault::BadValue(_) => 3,
            LineFault::TooLong => 4,
            LineFault::NoMemory => 5,
        }
    }
}

impl fmt::Display for LineFault {
    ghost use Rattle.std.specs.Prelude.{Some};
    ghost use Rattle.blot_console.specs.FaultText.{fault_text};

    ghost output = { λ fault. Some (fault_text fault) };

    fn fmt<W: fmt::Write>(&self, f: &mut fmt::Formatter<W>) -> fmt::Result {
        match self {
            LineFault::UnknownWord => f.write_str("the first word is unknown"),
            LineFault::WrongCount => f.write_str("the words are too few or too many"),
            LineFault::BadValue(place) => write!(f, "the word at place {place} is bad"),
            LineFault::TooLong => f.write_str("the line is too long"),
            LineFault::NoMemory => f.write_str("out of memory"),
        }
    }
}

impl Error for LineFault {}

/// What is wrong with a line.
#[derive(Clone, Copy, Debug, PartialEq, Eq)]
pub(crate) enum Wrong {
    UnknownWord,
    WrongCount,
    /// The word at this place is bad.
    BadValue(usize),
    TooLong,
}

impl Wrong {
    ghost use Rattle.std.specs.Prelude.{◌≡◌};
    ghost use Rattle.blot_console.specs.Faults.{fault_of};

    /// The fault that is told of it.
    pub(crate) fn fault(self) -> LineFault
        ensures { result ≡ fault_of self }
    {
        match self {
            Wrong::UnknownWord => LineFault::UnknownWord,
            Wrong::WrongCount => LineFault::WrongCount,
            Wrong::BadValue(place) => LineFault::BadValue(place),
            Wrong::TooLong => LineFault::TooLong,
        }
    }
}

/// Why the ask of a line isn't given.
#[derive(Clone, Copy, Debug)]
pub(crate) enum Refusal {
    Wrong(Wrong),
    NoMemory,
}

impl From<Wrong> for Refusal {
    ghost use Rattle.std.specs.Prelude.{◌≡◌};
    ghost use Rattle.blot_console.specs.declared.fault.Refusal.TheVariants as refusals;

    ghost from_gives = { λ wrong refusal. refusal ≡ refusals.Wrong wrong };

    fn from(wrong: Wrong) -> Refusal {
        Refusal::Wrong(wrong)
    }
}

impl From<NoMemory> for Refusal {
    ghost use Rattle.std.specs.Prelude.{◌≡◌};
    ghost use Rattle.blot_console.specs.declared.fault.Refusal.TheVariants as refusals;

    ghost from_gives = { λ _ refusal. refusal ≡ refusals.NoMemory };

    fn from(_: NoMemory) -> Refusal {
        Refusal::NoMemory
    }
}

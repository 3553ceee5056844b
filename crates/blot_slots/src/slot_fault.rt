//! Why a session isn't handed out, or no table is made.

use std::alloc::AllocError;
use std::error::Error;
use std::fmt;

/// Why a session isn't handed out, or no table is made.
#[derive(Clone, Copy, Debug, PartialEq, Eq)]
pub enum SlotFault {
    /// The peer isn't listed.
    UnknownPeer = 1,
    /// The peer's session is out: it is connected already.
    AlreadyOn = 2,
    /// Two of the listed peers are the same.
    RepeatedPeer = 3,
    /// There was no memory.
    NoMemory = 4,
}

impl fmt::Display for SlotFault {
    ghost use Rattle.std.specs.Prelude.{Some};
    ghost use Rattle.blot_slots.specs.FaultText.{slot_fault_text};

    ghost output = { λ fault. Some (slot_fault_text fault) };

    fn fmt<W: fmt::Write>(&self, f: &mut fmt::Formatter<W>) -> fmt::Result {
        f.write_str(match self {
            SlotFault::UnknownPeer => "the peer isn't listed",
            SlotFault::AlreadyOn => "the peer is already on",
            SlotFault::RepeatedPeer => "a peer is listed twice",
            SlotFault::NoMemory => "out of memory",
        })
    }
}

impl Error for SlotFault {}

impl From<AllocError> for SlotFault {
    ghost use Rattle.std.specs.Prelude.{◌≡◌};
    ghost use Rattle.blot_slots.specs.declared.slot_fault.SlotFault.TheVariants as faults;

    ghost from_gives = { λ _ fault. fault ≡ faults.NoMemory };

    fn from(_: AllocError) -> SlotFault {
        SlotFault::NoMemory
    }
}

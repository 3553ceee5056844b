//! Why a message can't be written.

use std::alloc::AllocError;
use std::error::Error;
use std::fmt;

/// Why a message isn't begun or a field isn't put: the first of these that applies.
#[derive(Clone, Copy, Debug, PartialEq, Eq)]
pub enum WriteFault {
    /// The body would be longer than 65,536 bytes.
    TooLong = 1,
    /// An SOH stands in the kind, or in a value that isn't data.
    SohInValue = 2,
    /// There was no memory.
    NoMemory = 3,
}

impl fmt::Display for WriteFault {
    ghost use Rattle.std.specs.Prelude.{Some};
    ghost use Rattle.blot_tag.specs.FaultText.{write_fault_text};

    ghost output = { λ fault. Some (write_fault_text fault) };

    fn fmt<W: fmt::Write>(&self, f: &mut fmt::Formatter<W>) -> fmt::Result {
        f.write_str(match self {
            WriteFault::TooLong => "the message is too long",
            WriteFault::SohInValue => "a value has an SOH",
            WriteFault::NoMemory => "out of memory",
        })
    }
}

impl Error for WriteFault {}

impl From<AllocError> for WriteFault {
    ghost use Rattle.std.specs.Prelude.{◌≡◌};
    ghost use Rattle.blot_tag.specs.declared.write_fault.WriteFault.TheVariants as faults;

    ghost from_gives = { λ _ fault. fault ≡ faults.NoMemory };

    fn from(_: AllocError) -> WriteFault {
        WriteFault::NoMemory
    }
}

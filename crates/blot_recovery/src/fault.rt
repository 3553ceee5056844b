//! Why a text isn't taken up.
ghost use Rattle.std.specs.Prelude.{◌≡◌};
ghost use Rattle.blot_recovery.specs.declared.fault.RecoverFault.TheVariants.{NoMemory as OutOfMemory};
ghost use Rattle.blot_recovery.specs.Faults.{told_by_text};

use blot_diary::Beginning;
use blot_journal::DeviceFault;
use blot_types::Text64;
use std::alloc::AllocError as NoMemory;

/// Why a text isn't taken up.
#[derive(Clone, Copy, Debug, PartialEq, Eq)]
pub enum RecoverFault {
    NoMemory,
    /// The text couldn't be read.
    Unreadable,
    /// It is the journal of another blotter, or of another day.
    Another(Beginning),
    /// A frame of or to a peer that isn't listed, or an event of an operator of another name.
    Unlisted(Text64),
    /// What begins at this place of the text, from 0, doesn't stand in a journal, or the desk doesn't take it.
    Damaged(usize),
}

impl From<NoMemory> for RecoverFault {
    ghost from_gives = { λ _ fault. fault ≡ OutOfMemory };

    fn from(_fault: NoMemory) -> RecoverFault {
        RecoverFault::NoMemory
    }
}

impl From<DeviceFault> for RecoverFault {
    ghost from_gives = { λ fault told. told ≡ told_by_text fault };

    fn from(fault: DeviceFault) -> RecoverFault {
        match fault {
            DeviceFault::NoMemory => RecoverFault::NoMemory,
            DeviceFault::Failed => RecoverFault::Unreadable,
        }
    }
}

//! Why a conversation stopped.
use std::alloc::{AllocError as NoMemory, AllocFailed};
use thiserror::Error;

/// Why a client stopped before the end of its input.
#[derive(Clone, Copy, Debug, PartialEq, Eq, Error)]
pub enum AskFault {
    /// The input couldn't be read.
    #[error("standard input can't be read")]
    Input,
    /// The output couldn't be written.
    #[error("standard output can't be written")]
    Output,
    /// The name is that of an operator who is on.
    #[error("the name is on already")]
    Taken,
    /// As many names came as a day has.
    #[error("no name is left")]
    Full,
    /// The name wasn't answered as a blotter answers it.
    #[error("no blotter answers")]
    Strange,
    /// The server's answers ended, or couldn't be read, while one was due; or nothing can be sent to it.
    #[error("the server is gone")]
    Gone,
    /// Memory ran out.
    #[error("no memory")]
    NoMemory,
}

impl From<NoMemory> for AskFault {
    ghost use Rattle.std.specs.Prelude.{◌≡◌};
    ghost use Rattle.blot_ask.specs.declared.fault.AskFault.TheVariants.{NoMemory};

    ghost from_gives = { λ _ fault. fault ≡ NoMemory };

    fn from(_fault: NoMemory) -> AskFault {
        AskFault::NoMemory
    }
}

impl<T: Drop> From<AllocFailed<T>> for AskFault {
    ghost use Rattle.std.specs.Prelude.{◌≡◌};
    ghost use Rattle.blot_ask.specs.declared.fault.AskFault.TheVariants.{NoMemory};

    ghost from_gives = { λ _ fault. fault ≡ NoMemory };

    fn from(_fault: AllocFailed<T>) -> AskFault {
        AskFault::NoMemory
    }
}

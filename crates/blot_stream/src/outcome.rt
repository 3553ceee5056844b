//! How a run ends.
ghost use Rattle.std.specs.Prelude.{◌≡◌, option_map};
ghost use Rattle.blot_stream.specs.Outcome.{outcome_of, served_outcome, status_of, last_line_of};

use blot_types::EVENTS_MAX;
use std::alloc::{AllocError as NoMemory, AllocFailed};
use thiserror::Error;

/// Why a replay, a capture or an operator's lines stopped before their end.
#[derive(Clone, Copy, Debug, PartialEq, Eq, Error)]
pub enum ReplayFault {
    /// The input couldn't be read.
    #[error("standard input can't be read")]
    Read = 1,
    /// The output couldn't be written.
    #[error("standard output can't be written")]
    Write = 2,
    /// As many events are recorded as a day has, and the capture brought a further command.
    #[error("the record of {EVENTS_MAX} events is full")]
    Full = 3,
    /// Memory ran out.
    #[error("no memory")]
    NoMemory = 4,
    /// The input had more than 2^30 pieces.
    #[error("the input is too long")]
    TooLong = 5,
    /// What keeps the events couldn't be written, and no more events are taken.
    #[error("the journal can't be written")]
    Journal = 6,
}

impl From<NoMemory> for ReplayFault {
    ghost use Rattle.std.specs.Prelude.{◌≡◌};
    ghost use Rattle.blot_stream.specs.declared.outcome.ReplayFault.TheVariants.{NoMemory};

    ghost from_gives = { λ _ fault. fault ≡ NoMemory };

    fn from(_fault: NoMemory) -> ReplayFault {
        ReplayFault::NoMemory
    }
}

/// What a day that is served met. At Connection, and where the operator's lines stopped, the report is still written, unless the
/// journal can't be.
#[derive(Clone, Copy, Debug, PartialEq, Eq, Error)]
pub enum ServeFault {
    /// No connection can be accepted, so no further round began.
    #[error("a connection can't be accepted")]
    Connection,
    /// The operator's lines stopped, or the report couldn't be written.
    #[error("{0}")]
    Lines(ReplayFault),
    /// The receipts aren't those of the history.
    #[error("the receipts don't agree with the history")]
    Unsettled,
    /// Memory ran out.
    #[error("no memory")]
    NoMemory,
}

impl From<NoMemory> for ServeFault {
    ghost use Rattle.std.specs.Prelude.{◌≡◌};
    ghost use Rattle.blot_stream.specs.declared.outcome.ServeFault.TheVariants.{NoMemory};

    ghost from_gives = { λ _ fault. fault ≡ NoMemory };

    fn from(_fault: NoMemory) -> ServeFault {
        ServeFault::NoMemory
    }
}

impl<T: Drop> From<AllocFailed<T>> for ServeFault {
    ghost use Rattle.std.specs.Prelude.{◌≡◌};
    ghost use Rattle.blot_stream.specs.declared.outcome.ServeFault.TheVariants.{NoMemory};

    ghost from_gives = { λ _ fault. fault ≡ NoMemory };

    fn from(_fault: AllocFailed<T>) -> ServeFault {
        ServeFault::NoMemory
    }
}

/// How a run of the program ends.
#[derive(Clone, Copy, Debug, PartialEq, Eq)]
pub enum Outcome {
    Done,
    /// The input, the output or the capture is at fault.
    InputFault,
    /// The words of the command line are refused.
    BadWords,
    NoMemory,
}

impl Outcome {
    /// How a run ends whose last call answered this.
    pub fn of_replay(replayed: Result<(), ReplayFault>) -> Outcome
        ensures { result ≡ outcome_of replayed }
    {
        match replayed {
            Ok(()) => Outcome::Done,
            Err(ReplayFault::NoMemory) => Outcome::NoMemory,
            Err(_) => Outcome::InputFault,
        }
    }

    /// How a run ends that served a day.
    pub fn of_served(served: Result<(), ServeFault>) -> Outcome
        ensures { result ≡ served_outcome served }
    {
        match served {
            Ok(()) => Outcome::Done,
            Err(ServeFault::NoMemory | ServeFault::Lines(ReplayFault::NoMemory)) =>
                Outcome::NoMemory,
            Err(_) => Outcome::InputFault,
        }
    }

    /// The program's status: 0 done, 1 input fault, 2 words refused, 3 out of memory.
    pub fn status(self) -> u8
        ensures { result ≡ status_of self }
    {
        match self {
            Outcome::Done => 0,
            Outcome::InputFault => 1,
            Outcome::BadWords => 2,
            Outcome::NoMemory => 3,
        }
    }

    /// The one line that goes to standard error in the end, without its LF; none where all went well.
    pub fn last_line(self) -> Option<&'static str>
        ensures { option_map (λ line. line.now) result ≡ last_line_of self }
    {
        match self {
            Outcome::Done => None,
            Outcome::InputFault => Some("blotter: input fault"),
            Outcome::BadWords => Some("blotter: bad words"),
            Outcome::NoMemory => Some("blotter: no memory"),
        }
    }
}

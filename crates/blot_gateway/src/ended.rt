//! How a connection ends.
ghost use Rattle.std.specs.Prelude.{◌≡◌};
ghost use Rattle.blot_gateway.specs.Endings.{ended_by, ended_name, ended_number};

use blot_session::CloseReason;
use std::alloc::AllocError;

/// The most reads of one input, as of one greeting or one session.
pub const READS_MAX: u64 = 1 << 30;

/// How a connection ends. This project's rule.
#[derive(Clone, Copy, Debug, PartialEq, Eq)]
pub enum Ended {
    /// The session ended it, for this reason.
    Closed(CloseReason),
    /// The wire is at its end.
    End,
    /// A read failed.
    ReadFault,
    /// A write failed.
    WriteFault,
    /// 2^30 reads were made.
    TooLong,
    /// Memory ran out.
    NoMemory,
    /// No first frame came within the reads of a greeting.
    NoGreeting,
}

impl Ended {
    /// The number of an ending, 0 to 6: Closed is 0, whatever the reason.
    pub fn number(self) -> u8
        ensures { result ≡ ended_number self }
    {
        match self {
            Ended::Closed(_) => 0,
            Ended::End => 1,
            Ended::ReadFault => 2,
            Ended::WriteFault => 3,
            Ended::TooLong => 4,
            Ended::NoMemory => 5,
            Ended::NoGreeting => 6,
        }
    }

    /// The name of an ending: that of the variant, and of Closed that of its reason.
    pub fn name(self) -> &'static [u8]
        ensures { result.now ≡ ended_name self }
    {
        match self {
            Ended::Closed(reason) => reason.name(),
            Ended::End => b"End",
            Ended::ReadFault => b"ReadFault",
            Ended::WriteFault => b"WriteFault",
            Ended::TooLong => b"TooLong",
            Ended::NoMemory => b"NoMemory",
            Ended::NoGreeting => b"NoGreeting",
        }
    }
}

/// Why no further call of a session is made, where it isn't the wire that ends it.
#[derive(Clone, Copy, Debug, PartialEq, Eq)]
pub(crate) enum Stop {
    /// The session ended the connection, for this reason.
    Closed(CloseReason),
    /// A write failed.
    WriteFault,
    /// Memory ran out.
    NoMemory,
}

impl Stop {
    /// The ending.
    pub(crate) fn ended(self) -> Ended
        ensures { result ≡ ended_by self }
    {
        match self {
            Stop::Closed(reason) => Ended::Closed(reason),
            Stop::WriteFault => Ended::WriteFault,
            Stop::NoMemory => Ended::NoMemory,
        }
    }
}

impl From<AllocError> for Stop {
    ghost use Rattle.std.specs.Prelude.{◌≡◌};
    ghost use Rattle.blot_gateway.specs.declared.ended.Stop.TheVariants as stops;

    ghost from_gives = { λ _ stop. stop ≡ stops.NoMemory };

    fn from(_: AllocError) -> Stop {
        Stop::NoMemory
    }
}

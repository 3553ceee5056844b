//! Why the words are refused.
ghost use Rattle.std.specs.Prelude.{◌≡◌, option_map};
ghost use Rattle.clap.specs.Values.{kind_of};
ghost use Rattle.blot_arguments.specs.Refusal.{has_sentence, outcome_of, text_of};

use blot_stream::Outcome;
use clap::error::ErrorKind;
use std::alloc::{AllocError, AllocFailed, Global};
use thiserror::Error;

/// Why the words of the command line are refused, in a sentence.
#[derive(Debug, Drop, Error)]
pub enum Refusal {
    /// `clap` refuses them, or was asked for help: its text for the user.
    #[error("{0}")]
    Usage(String),
    /// Own or a peer is no text.
    #[error("'{0}' is no CompID: 1 to 64 printable ASCII characters")]
    NoCompId(String),
    /// An operator's name is no text.
    #[error("'{0}' is no name: 1 to 64 printable ASCII characters")]
    NoName(String),
    /// The day isn't one of the calendar.
    #[error("'{0}' is no day")]
    NoDay(String),
    /// A peer is named twice.
    #[error("peer {0} is named twice")]
    PeerTwice(String),
    /// One's own CompID is named as a peer, and a journal is.
    #[error("peer {0} is the blotter itself")]
    OwnIsPeer(String),
    /// Two options that don't go together. `clap` refuses them itself.
    #[error("--{0} and --{1} don't go together")]
    Together(&'static str, &'static str),
    /// A count is below 1, or above the most. `clap` refuses such a word itself.
    #[error("--{0} is out of range")]
    OutOfRange(&'static str),
    /// There is no such word, though `clap` asks for one.
    #[error("no {0} is named")]
    Missing(&'static str),
    /// A word isn't UTF-8.
    #[error("a word isn't UTF-8")]
    NotUtf8,
    #[error("no memory")]
    NoMemory,
}

impl Refusal {
    /// How the run ends.
    pub fn outcome(&self) -> Outcome
        ensures { result ≡ outcome_of self.now }
    {
        match self {
            Refusal::NoMemory => Outcome::NoMemory,
            _ => Outcome::BadWords,
        }
    }

    /// Whether the sentence is told before the text: the text of `clap` says all, and nothing more is told out of memory.
    pub fn has_sentence(&self) -> bool
        ensures { result ≡ has_sentence self.now }
    {
        !matches!(self, Refusal::Usage(_) | Refusal::NoMemory)
    }

    /// What standard error is told last, without its last LF: the text of `clap`, or else the outcome's line.
    pub fn text(&self) -> Option<&str>
        ensures { option_map (λ text. text.now) result ≡ text_of self.now }
    {
        match self {
            Refusal::Usage(text) => Some(text.as_str().trim_end()),
            _ => self.outcome().last_line(),
        }
    }
}

impl From<AllocError> for Refusal {
    ghost use Rattle.std.specs.Prelude.{◌≡◌};
    ghost use Rattle.blot_arguments.specs.declared.refusal.Refusal.TheVariants.{NoMemory};

    ghost from_gives = { λ _ refusal. refusal ≡ NoMemory };

    fn from(_error: AllocError) -> Refusal {
        Refusal::NoMemory
    }
}

impl<T: Drop> From<AllocFailed<T>> for Refusal {
    ghost use Rattle.std.specs.Prelude.{◌≡◌};
    ghost use Rattle.blot_arguments.specs.declared.refusal.Refusal.TheVariants.{NoMemory};

    ghost from_gives = { λ _ refusal. refusal ≡ NoMemory };

    fn from(_error: AllocFailed<T>) -> Refusal {
        Refusal::NoMemory
    }
}

/// The refusal where `clap` gave no matches; help that was asked for is one too.
pub fn refusal_of(alloc: Global, error: clap::Error) -> Refusal
    ensures memory { kind_of error ≡ ErrorKind.OutOfMemory → result ≡ Refusal.NoMemory }
{
    if error.kind() == ErrorKind::OutOfMemory {
        return Refusal::NoMemory;
    }
    match format!(in alloc; "{error}") {
        Ok(text) => Refusal::Usage(text),
        Err(_) => Refusal::NoMemory,
    }
}

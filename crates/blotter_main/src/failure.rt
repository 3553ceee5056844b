//! Why a run failed, and what is told of it.
ghost use Rattle.std.specs.Prelude.{◌≡◌, option_map};
ghost use Rattle.blotter_main.specs.Failure.{has_sentence, outcome_of, text_of};

use blot_arguments::Refusal;
use blotter::{Outcome, ReplayFault, ServeFault};
use std::alloc::{AllocError, Global};
use std::io;
use thiserror::Error;

/// Why a run failed, in a sentence.
#[derive(Debug, Drop, Error)]
pub enum Failure {
    /// The words of the command line are refused.
    #[error("{0}")]
    Words(Refusal),
    /// The file with the capture can't be opened: its path, and why, in the system's words.
    #[error("{0}: {1}")]
    NoFile(String, String),
    /// The file with the capture can't be read: its path.
    #[error("{0} can't be read")]
    Unreadable(String),
    /// Another program has the journal: its path.
    #[error("{0} is in use")]
    InUse(String),
    /// A file that isn't a journal has the name under which a journal would be made: the journal's path.
    #[error("{0}.new is in the way")]
    InTheWay(String),
    /// The file isn't a journal: its path.
    #[error("{0} is no journal")]
    NoJournal(String),
    /// The journal is another blotter's, or of another day: its path, and whose it is, and of which day.
    #[error("{0} is the journal of {1}, {2}")]
    AnotherJournal(String, String, String),
    /// The journal has a message of a peer that isn't listed, or one to it: its path, and the peer.
    #[error("{0} has a message of {1}, which isn't listed")]
    Unlisted(String, String),
    /// The journal is damaged: its path, and the place of the first byte that is wrong, from 0.
    #[error("{0} is damaged at byte {1}")]
    Damaged(String, usize),
    /// The journal can't be written: its path, and why, in the system's words.
    #[error("{0} can't be written: {1}")]
    Unwritable(String, String),
    /// What stands where the operators' socket was to be is no socket: its path.
    #[error("{0} is no socket")]
    NoSocket(String),
    /// Nobody serves at the socket: its path.
    #[error("{0}: nobody listens there")]
    NoServer(String),
    /// Whoever serves at the socket is no blotter: its path.
    #[error("{0}: no blotter answers there")]
    NoBlotter(String),
    /// The server went away while it was asked.
    #[error("the server is gone")]
    ServerGone,
    /// An operator of this name is on.
    #[error("{0} is on already")]
    NameTaken(String),
    /// As many operators came as a day has: the name.
    #[error("sixteen operators came today, so {0} has no seat")]
    NoSeat(String),
    /// No operator's name is given, and the environment has none that is a text.
    #[error("no name: give --name NAME")]
    NoName,
    /// Another program has the port.
    #[error("port {0} is taken")]
    PortTaken(u16),
    /// The port can't be used for another reason.
    #[error("port {0} can't be used")]
    NoPort(u16),
    /// The replay, the capture or the operator's lines stopped.
    #[error("{0}")]
    Stopped(ReplayFault),
    /// What the day that was served met.
    #[error("{0}")]
    Served(ServeFault),
    #[error("no memory")]
    NoMemory,
}

impl Failure {
    /// How the run ends.
    pub fn outcome(&self) -> Outcome
        ensures { result ≡ outcome_of self.now }
    {
        match self {
            Failure::Words(refusal) => refusal.outcome(),
            Failure::Stopped(fault) => Outcome::of_replay(Err(*fault)),
            Failure::Served(fault) => Outcome::of_served(Err(*fault)),
            Failure::NoMemory => Outcome::NoMemory,
            _ => Outcome::InputFault,
        }
    }

    /// Whether the sentence is told before the text: the text of `clap` says all, and nothing more is told out of memory.
    pub fn has_sentence(&self) -> bool
        ensures { result ≡ has_sentence self.now }
    {
        match self {
            Failure::Words(refusal) => refusal.has_sentence(),
            _ => !matches!(self.outcome(), Outcome::NoMemory),
        }
    }

    /// What standard error is told last, without its last LF.
    pub fn text(&self) -> Option<&str>
        ensures { option_map (λ text. text.now) result ≡ text_of self.now }
    {
        match self {
            Failure::Words(refusal) => refusal.text(),
            _ => self.outcome().last_line(),
        }
    }
}

impl From<AllocError> for Failure {
    ghost use Rattle.std.specs.Prelude.{◌≡◌};
    ghost use Rattle.blotter_main.specs.declared.failure.Failure.TheVariants.{NoMemory};

    ghost from_gives = { λ _ failure. failure ≡ NoMemory };

    fn from(_error: AllocError) -> Failure {
        Failure::NoMemory
    }
}

/// Why the system failed, in its own words, without their number.
pub fn system_words(alloc: Global, error: &io::Error) -> Result<String, AllocError> {
    let text = format!(in alloc; "{error}")?;
    match text.split_once(" (os error ") {
        Some((words, _)) => String::from_str(alloc, words),
        None => Ok(text),
    }
}

//! What came of a frame at the sessions of a capture's peers.
ghost use Rattle.std.specs.Prelude.{◌≡◌};
ghost use Rattle.blot_capture.specs.Handling.{became_by, wanted_of};

use crate::became::Became;
use blot_desk::Reply;
use blot_session::{Action, Met};

/// What came of a frame, with what its session wants done.
#[derive(Drop)]
pub enum Handled {
    /// Its sender isn't a listed peer, or can't be read.
    Passed,
    /// It delivered no command.
    Met(Vec<Action>),
    /// It delivered a command, and did nothing else: the book's reply, and what the session wants done about that.
    Replied(Reply, Vec<Action>),
}

impl Handled {
    /// What became of the frame, where its session made this of it.
    pub fn became(&self, met: Option<Met>) -> Became
        ensures { result ≡ became_by met self.now }
    {
        match (self, met) {
            (Handled::Replied(reply, _), _) => Became::Replied(*reply),
            (Handled::Met(_), Some(met)) => Became::Met(met),
            _ => Became::Passed,
        }
    }

    /// What the session wants done, except for the command that it delivered.
    pub fn wanted(&self) -> &[Action]
        ensures { result.now ≡ wanted_of self.now }
    {
        match self {
            Handled::Passed => &[],
            Handled::Met(wanted) | Handled::Replied(_, wanted) => wanted.as_slice(),
        }
    }
}

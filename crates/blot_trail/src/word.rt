//! The words of a trail for what became of a message.
ghost use Rattle.std.specs.Prelude.{◌≡◌};
ghost use Rattle.blot_trail.specs.TrailText.{word_name, word_of, word_place};

use blot_capture::Became;
use blot_desk::Reply;
use blot_session::Met;

/// What became of a message, by its word in a trail.
#[derive(Clone, Copy, Debug, PartialEq, Eq)]
pub enum Word {
    Accepted,
    Refused,
    Rejected,
    Unsupported,
    Taken,
    Early,
    Late,
    Closed,
    Passed,
}

impl Word {
    /// The word of what became of a message.
    pub fn of(became: &Became) -> Word
        ensures { result ≡ word_of became.now }
    {
        match became {
            Became::Passed => Word::Passed,
            Became::Met(Met::Closed(_)) => Word::Closed,
            Became::Met(Met::Delivered | Met::Taken) => Word::Taken,
            Became::Met(Met::Rejected { .. }) => Word::Rejected,
            Became::Met(Met::Unsupported) => Word::Unsupported,
            Became::Met(Met::Early(_)) => Word::Early,
            Became::Met(Met::Late(_)) => Word::Late,
            Became::Replied(Reply::Accepted(_)) => Word::Accepted,
            Became::Replied(_) => Word::Refused,
        }
    }

    /// Its place among the sums, 0 to 8.
    pub fn place(self) -> u8
        ensures { result ≡ word_place self }
    {
        match self {
            Word::Accepted => 0,
            Word::Refused => 1,
            Word::Rejected => 2,
            Word::Unsupported => 3,
            Word::Taken => 4,
            Word::Early => 5,
            Word::Late => 6,
            Word::Closed => 7,
            Word::Passed => 8,
        }
    }

    /// How it is written.
    pub fn name(self) -> &'static [u8]
        ensures { result.now ≡ word_name self }
    {
        match self {
            Word::Accepted => b"accepted",
            Word::Refused => b"refused",
            Word::Rejected => b"rejected",
            Word::Unsupported => b"unsupported",
            Word::Taken => b"taken",
            Word::Early => b"early",
            Word::Late => b"late",
            Word::Closed => b"closed",
            Word::Passed => b"passed",
        }
    }
}

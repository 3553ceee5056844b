//! What became of a message of a capture.

use blot_desk::Reply;
use blot_session::Met;

/// What became of a message of a capture. This project's rule.
#[derive(Clone, Copy, Debug, PartialEq, Eq)]
pub enum Became {
    /// Its sender isn't a listed peer, or can't be read.
    Passed,
    /// What its session made of it, which delivered no command.
    Met(Met),
    /// Its command was delivered: the book's reply.
    Replied(Reply),
}

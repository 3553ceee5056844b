//! What rows share: each begins where the one before it left off.

use blot_session::Session;
use blot_tag::{FrameText, Reader};
use blot_time::Moment;
use blot_types::Text64;
use std::alloc::Global;

/// What the rows act on.
#[derive(Drop)]
pub struct State {
    pub alloc: Global,
    /// The bytes of the row's text.
    pub bytes: Vec<u8>,
    pub reader: Reader,
    /// What the frames of a stream say where it comes whole, and where it comes in pieces.
    pub whole: String,
    pub pieces: String,
    /// The message in the making.
    pub text: Option<FrameText>,
    pub own: Text64,
    pub peer: Text64,
    pub session: Session,
    /// The clock of the session.
    pub now: Moment,
}

impl State {
    /// Before the first row; none where a word of this file is wrong.
    pub fn new(alloc: Global) -> Option<State> {
        let own = Text64::read(b"MO")?;
        let peer = Text64::read(b"BRKA")?;
        let now = Moment::from_millis(0)?;
        Some(State {
            alloc,
            bytes: Vec::new(alloc),
            reader: Reader::new(alloc),
            whole: String::new(alloc),
            pieces: String::new(alloc),
            text: None,
            own,
            peer,
            session: Session::new(own, peer),
            now,
        })
    }
}

//! The parties of a session that is served.

use blot_session::Session;

/// A wire, a clock and a sink, with the session that is served over them.
#[derive(Drop)]
pub struct Parties<W, C, S> {
    /// The wire.
    pub wire: W,
    /// The clock.
    pub clock: C,
    /// What takes the commands that the session delivers.
    pub sink: S,
    /// The session.
    pub session: Session,
}

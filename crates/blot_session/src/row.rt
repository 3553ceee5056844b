//! What a row of the session's table says.
ghost use Rattle.std.specs.Prelude.{◌≡◌};
ghost use Rattle.blot_session.specs.Table.{silent, sends, sends_both, delivers, closing, acts};

use crate::CloseReason;
use crate::outbound::Outbound;
use crate::state::{Awaited, State};

/// What a row of the session's table says: the messages to send, how the call ends, and the session that it leaves, before
/// the messages take their numbers.
#[derive(Clone, Copy)]
pub(crate) struct Row {
    pub(crate) sends: Sends,
    pub(crate) end: End,
    pub(crate) state: State,
}

/// The messages of a row, in their order.
#[derive(Clone, Copy)]
pub(crate) enum Sends {
    Nothing,
    One(Outbound),
    Two(Outbound, Outbound),
}

/// How a call ends.
#[derive(Clone, Copy)]
pub(crate) enum End {
    /// The session goes on.
    Stays,
    /// The command of the message is delivered.
    Delivers,
    /// The connection ends.
    Closes(CloseReason),
}

impl Row {
    /// Nothing is sent.
    pub(crate) fn silent(state: State) -> Row
        ensures { result ≡ silent state }
    {
        Row {
            sends: Sends::Nothing,
            end: End::Stays,
            state,
        }
    }

    /// One message is sent.
    pub(crate) fn sends(message: Outbound, state: State) -> Row
        ensures { result ≡ sends message state }
    {
        Row {
            sends: Sends::One(message),
            end: End::Stays,
            state,
        }
    }

    /// Two messages are sent.
    pub(crate) fn sends_both(first: Outbound, second: Outbound, state: State) -> Row
        ensures { result ≡ sends_both first second state }
    {
        Row {
            sends: Sends::Two(first, second),
            end: End::Stays,
            state,
        }
    }

    /// The command of the message is delivered, and awaits its reply.
    pub(crate) fn delivers(awaited: Awaited, state: State) -> Row
        ensures { result ≡ delivers awaited state }
    {
        Row {
            sends: Sends::Nothing,
            end: End::Delivers,
            state: state.awaiting(awaited),
        }
    }

    /// The connection ends then.
    pub(crate) fn closing(self, reason: CloseReason) -> Row
        ensures { result ≡ closing reason self }
    {
        Row {
            end: End::Closes(reason),
            state: self.state.closed(),
            ..self
        }
    }

    /// Whether it does anything.
    pub(crate) fn acts(&self) -> bool
        ensures { result ≡ acts self.now }
    {
        !matches!((self.sends, self.end), (Sends::Nothing, End::Stays))
    }
}

//! Replies to what was delivered.
ghost use Rattle.std.specs.Prelude.{◌≡◌, ◌≤◌, Some};
ghost use Rattle.blot_fields.specs.declared.TheConstants.{SEQUENCE_MAX};
ghost use Rattle.blot_session.specs.Rows.{reply_row, taken_row};

use crate::CloseReason;
use crate::outbound::Outbound;
use crate::row::Row;
use crate::state::{Awaited, State};

/// The book's reply to a delivered command.
#[derive(Clone, Copy, Debug, PartialEq, Eq)]
pub enum SeenReply {
    Accepted,
    /// Refused, with the refusal's number, 1 to 15.
    Refused(u8),
}

/// The command wasn't taken: there was no room or no memory for it.
#[derive(Clone, Copy, Debug, PartialEq, Eq)]
pub struct NotTaken;

/// What a session does about a reply to what it awaits. A command that wasn't taken leaves its number expected, so that
/// the message is asked for again after the next Logon.
#[tactic(auto, unfolding(crate::specs::Rows::reply_row))]
pub(crate) fn reply_row(state: State, awaited: Awaited, reply: Result<SeenReply, NotTaken>) -> Row
    requires { state.expected ≤ SEQUENCE_MAX }
    ensures { result ≡ reply_row state awaited reply }
{
    match reply {
        Ok(reply) => taken_row(state.answered().counted(), awaited, reply),
        Err(NotTaken) => Row::sends(Outbound::Logout, state.answered()).closing(
            CloseReason::NotTaken,
        ),
    }
}

// An Allocation Instruction is answered, an Execution Report isn't.
fn taken_row(state: State, awaited: Awaited, reply: SeenReply) -> Row
    ensures { result ≡ taken_row state awaited reply }
{
    match awaited {
        Awaited::Report => Row::silent(state),
        Awaited::Allocation(id) => Row::sends(Outbound::AllocationAck { id, reply }, state),
    }
}

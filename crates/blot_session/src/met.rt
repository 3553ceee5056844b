//! What becomes of a frame at its session.
ghost use Rattle.std.specs.Prelude.{◌≡◌};
ghost use Rattle.blot_fields.specs.Numbers.{HasNumber};
ghost use Rattle.blot_session.specs.Met.{goes_before, is_before_number, is_late, met_by_answer, met_by_sends, met_of, passed_by};

use crate::CloseReason;
use crate::carrying::is_spent;
use crate::inbound::frame_row;
use crate::outbound::Outbound;
use crate::row::{End, Sends};
use crate::state::State;
use blot_fields::{Admin, Body, FieldFault, Message, head_in};
use blot_time::Moment;

/// What becomes of a frame at its session, by the row of the session's table that it meets. This project's rule.
#[derive(Clone, Copy, Debug, PartialEq, Eq)]
pub enum Met {
    /// The session closes the connection.
    Closed(CloseReason),
    /// The command of the message is delivered.
    Delivered,
    /// A Reject is sent.
    Rejected {
        /// RefTagID(371), or 0 where there is none.
        tag: u32,
        /// SessionRejectReason(373).
        reason: u8,
    },
    /// A Business Message Reject is sent.
    Unsupported,
    /// The number is above this one, which was expected, and what is missing is asked for.
    Early(u64),
    /// The number is below this one, which was expected, and the message is ignored.
    Late(u64),
    /// The message is taken, and the book is left alone.
    Taken,
}

/// What becomes of a frame that says this.
pub(crate) fn met_of(state: &State, said: &Result<Message, FieldFault>, now: Moment) -> Met
    requires { HasNumber said.now }
    ensures { result ≡ met_of state.now said.now now }
{
    let row = frame_row(*state, said, now);
    if is_spent(state, &row) {
        return Met::Closed(CloseReason::Spent);
    }
    match row.end {
        End::Closes(reason) => Met::Closed(reason),
        End::Delivers => Met::Delivered,
        End::Stays => met_by_sends(passed_by(state, said), row.sends),
    }
}

// What becomes of a message that has these answers, or none.
fn met_by_sends(silent: Met, sends: Sends) -> Met
    ensures { result ≡ met_by_sends silent sends }
{
    match sends {
        Sends::Nothing => silent,
        Sends::One(answer) => met_by_answer(&answer).unwrap_or(Met::Taken),
        Sends::Two(first, second) => {
            met_by_answer(&first)
                .or(met_by_answer(&second))
                .unwrap_or(Met::Taken)
        }
    }
}

// What the answer to a message says of it.
fn met_by_answer(answer: &Outbound) -> Option<Met>
    ensures { result ≡ met_by_answer answer.now }
{
    match answer {
        Outbound::Reject { tag, reason, .. } => Some(Met::Rejected {
            tag: *tag,
            reason: *reason,
        }),
        Outbound::Unsupported { .. } => Some(Met::Unsupported),
        Outbound::ResendRequest { begin } => Some(Met::Early(*begin)),
        _ => None,
    }
}

// What becomes of a message about which nothing is done.
fn passed_by(state: &State, said: &Result<Message, FieldFault>) -> Met
    ensures { result ≡ passed_by state.now said.now }
{
    if is_late(state, said) {
        return Met::Late(state.expected);
    }
    Met::Taken
}

// Whether a message bears a number below the expected one, and is judged by that number.
fn is_late(state: &State, said: &Result<Message, FieldFault>) -> bool
    ensures { result ≡ is_late state.now said.now }
{
    let Some(head) = head_in(said) else {
        return false;
    };
    head.number < state.expected && !is_before_number(said)
}

// Whether a message is a Sequence Reset that is looked at before its number.
fn is_before_number(said: &Result<Message, FieldFault>) -> bool
    ensures { result ≡ is_before_number said.now }
{
    match said {
        Ok(message) => goes_before(&message.body),
        Err(_) => false,
    }
}

// A Sequence Reset that isn't a gap fill is looked at before its number.
fn goes_before(body: &Body) -> bool
    ensures { result ≡ goes_before body.now }
{
    matches!(
        body,
        Body::Admin(Admin::SequenceReset {
            gap_fill: false,
            ..
        })
    )
}

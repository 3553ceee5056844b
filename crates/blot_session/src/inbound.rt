//! What a session does about a frame: who sent it and which number it bears. Each function is a row of the session's
//! table or a choice between some.
ghost use Rattle.std.specs.Prelude.{◌≡◌, ◌≤◌};
ghost use Rattle.blot_fields.specs.declared.TheConstants.{SEQUENCE_MAX};
ghost use Rattle.blot_fields.specs.Numbers.{HasNumber};
ghost use Rattle.blot_session.specs.Rows.{comp_id_row, high_body_row, high_row, frame_row, head_row, logout_row, low_row, message_row, number_row, on_row, peer_row, reset_row};

use crate::expected::expected_row;
use crate::logons::{logon_row, waiting_row};
use crate::outbound::Outbound;
use crate::row::Row;
use crate::state::{LinkState, State};
use crate::{CloseReason, tags};
use blot_fields::{Admin, Body, FieldFault, Head, Message, head_in};
use blot_time::Moment;

// SessionRejectReason(373) of a CompID problem.
const COMP_ID_PROBLEM: u8 = 9;

/// What a session does about a frame.
pub(crate) fn frame_row(state: State, said: &Result<Message, FieldFault>, now: Moment) -> Row
    requires { HasNumber said.now }
    ensures { result ≡ frame_row state said.now now }
{
    match state.link {
        LinkState::Waiting => waiting_row(state, said, now),
        LinkState::On(_) => on_row(state.heard(now), said, now),
        LinkState::Closed => Row::silent(state),
    }
}

// A frame whose header can be read, or can't.
#[tactic(auto, unfolding(crate::specs::Rows::on_row))]
fn on_row(state: State, said: &Result<Message, FieldFault>, now: Moment) -> Row
    requires { HasNumber said.now }
    ensures { result ≡ on_row state said.now now }
{
    match head_in(said) {
        Some(head) => head_row(state, head, said, now),
        None => Row::sends(Outbound::Logout, state).closing(CloseReason::BadHeader),
    }
}

// A frame with this header.
#[tactic(auto, unfolding(crate::specs::Rows::head_row))]
fn head_row(state: State, head: &Head, said: &Result<Message, FieldFault>, now: Moment) -> Row
    requires { head.now.number ≤ SEQUENCE_MAX }
    ensures { result ≡ head_row state head.now said.now now }
{
    if !state.is_from_peer(head) {
        return comp_id_row(state, head);
    }
    peer_row(state, head, said, now)
}

// A message of another sender, or to another target.
#[tactic(auto, unfolding(crate::specs::Rows::comp_id_row))]
fn comp_id_row(state: State, head: &Head) -> Row
    requires { head.now.number ≤ SEQUENCE_MAX }
    ensures { result ≡ comp_id_row state head.now }
{
    let tag = if state.is_sender(head) {
        tags::TARGET_COMP_ID
    } else {
        tags::SENDER_COMP_ID
    };
    let reject = Outbound::Reject {
        number: head.number,
        tag,
        reason: COMP_ID_PROBLEM,
    };
    let state = state.counted_under(head.number);
    Row::sends_both(reject, Outbound::Logout, state).closing(CloseReason::CompId)
}

// A frame of the peer. A Logon that resets the numbers, a Sequence Reset and a Logout are looked at before their numbers.
#[tactic(auto, unfolding(crate::specs::Rows::peer_row))]
fn peer_row(state: State, head: &Head, said: &Result<Message, FieldFault>, now: Moment) -> Row
    requires { head.now.number ≤ SEQUENCE_MAX }
    ensures { result ≡ peer_row state head.now said.now now }
{
    match said {
        Ok(message) => message_row(state, head, &message.body, said, now),
        Err(_) => number_row(state, head, said),
    }
}

// A message without a fault.
#[tactic(auto, unfolding(crate::specs::Rows::message_row))]
fn message_row(
    state: State,
    head: &Head,
    body: &Body,
    said: &Result<Message, FieldFault>,
    now: Moment,
) -> Row
    requires { head.now.number ≤ SEQUENCE_MAX }
    ensures { result ≡ message_row state head.now body.now said.now now }
{
    match body {
        Body::Admin(
            Admin::Logon {
                heartbeat,
                reset: true,
            },
        ) => logon_row(state.restarted(), head.number, *heartbeat, true, now),
        Body::Admin(
            Admin::SequenceReset {
                new_number,
                gap_fill: false,
            },
        ) => reset_row(state, head.number, *new_number),
        Body::Admin(Admin::Logout) => logout_row(state, head, said),
        _ => number_row(state, head, said),
    }
}

// A Sequence Reset that isn't a gap fill.
#[tactic(auto, unfolding(crate::specs::Rows::reset_row))]
fn reset_row(state: State, number: u64, new_number: u64) -> Row
    ensures { result ≡ reset_row state number new_number }
{
    if new_number < state.expected {
        return Row::sends(Outbound::incorrect(number, tags::NEW_SEQ_NO), state);
    }
    Row::silent(state.expecting(new_number))
}

// A Logout: one that comes to a session that is leaving ends the connection, under whatever number, and isn't answered.
#[tactic(auto, unfolding(crate::specs::Rows::logout_row))]
fn logout_row(state: State, head: &Head, said: &Result<Message, FieldFault>) -> Row
    requires { head.now.number ≤ SEQUENCE_MAX }
    ensures { result ≡ logout_row state head.now said.now }
{
    if state.is_leaving() {
        let state = state.counted_under(head.number);
        return Row::silent(state).closing(CloseReason::LoggedOut);
    }
    number_row(state, head, said)
}

// By the number: one that came before, one above the expected one, or that one.
#[tactic(auto, unfolding(crate::specs::Rows::number_row))]
fn number_row(state: State, head: &Head, said: &Result<Message, FieldFault>) -> Row
    requires { head.now.number ≤ SEQUENCE_MAX }
    ensures { result ≡ number_row state head.now said.now }
{
    if head.number < state.expected {
        return low_row(state, head.dup);
    }
    if state.expected < head.number {
        return high_row(state, said);
    }
    expected_row(state, head, said)
}

// A message that came before is ignored, where it says that it may be one.
#[tactic(auto, unfolding(crate::specs::Rows::low_row))]
fn low_row(state: State, dup: bool) -> Row
    ensures { result ≡ low_row state dup }
{
    if dup {
        return Row::silent(state);
    }
    Row::sends(Outbound::Logout, state).closing(CloseReason::TooLow)
}

// Messages before this one were lost, and are asked for again.
#[tactic(auto, unfolding(crate::specs::Rows::high_row))]
fn high_row(state: State, said: &Result<Message, FieldFault>) -> Row
    ensures { result ≡ high_row state said.now }
{
    match said {
        Ok(message) => high_body_row(state, &message.body),
        Err(_) => Row::sends(Outbound::asked_again(state.expected), state),
    }
}

// A Resend Request is answered at once, and so is a Logout.
#[tactic(auto, unfolding(crate::specs::Rows::high_body_row))]
fn high_body_row(state: State, body: &Body) -> Row
    ensures { result ≡ high_body_row state body.now }
{
    match body {
        Body::Admin(Admin::ResendRequest { begin, .. }) if *begin < state.next => {
            Row::sends_both(
                Outbound::GapFill { begin: *begin },
                Outbound::asked_again(state.expected),
                state,
            )
        }
        Body::Admin(Admin::Logout) => {
            Row::sends_both(
                Outbound::asked_again(state.expected),
                Outbound::Logout,
                state,
            )
        }
        _ => Row::sends(Outbound::asked_again(state.expected), state),
    }
}

//! Logons.
ghost use Rattle.std.specs.Prelude.{◌≡◌, ◌≤◌};
ghost use Rattle.blot_fields.specs.declared.TheConstants.{SEQUENCE_MAX};
ghost use Rattle.blot_fields.specs.Numbers.{HasNumber};
ghost use Rattle.blot_session.specs.Rows.{first_logon_row, logon_row, low_logon_row, waiting_body_row, waiting_logon_row, waiting_row};

use crate::CloseReason;
use crate::outbound::Outbound;
use crate::row::Row;
use crate::state::State;
use blot_fields::{Admin, Body, FieldFault, Head, Message};
use blot_time::Moment;

/// What a session that waits does about a frame: only a Logon without a fault opens it.
#[tactic(auto, unfolding(crate::specs::Rows::waiting_row))]
pub(crate) fn waiting_row(state: State, said: &Result<Message, FieldFault>, now: Moment) -> Row
    requires { HasNumber said.now }
    ensures { result ≡ waiting_row state said.now now }
{
    match said {
        Ok(message) => waiting_body_row(state, &message.head, &message.body, now),
        Err(_) => Row::silent(state).closing(CloseReason::NoLogon),
    }
}

// A message without a fault.
fn waiting_body_row(state: State, head: &Head, body: &Body, now: Moment) -> Row
    requires { head.now.number ≤ SEQUENCE_MAX }
    ensures { result ≡ waiting_body_row state head.now body.now now }
{
    match body {
        Body::Admin(Admin::Logon { heartbeat, reset }) => {
            waiting_logon_row(state, head, *heartbeat, *reset, now)
        }
        _ => Row::silent(state).closing(CloseReason::NoLogon),
    }
}

// A Logon from whomever.
#[tactic(auto, unfolding(crate::specs::Rows::waiting_logon_row))]
fn waiting_logon_row(state: State, head: &Head, heartbeat: u32, reset: bool, now: Moment) -> Row
    requires { head.now.number ≤ SEQUENCE_MAX }
    ensures { result ≡ waiting_logon_row state head.now heartbeat reset now }
{
    if !state.is_from_peer(head) {
        return Row::silent(state).closing(CloseReason::CompId);
    }
    let state = if reset { state.restarted() } else { state };
    first_logon_row(state, head, heartbeat, reset, now)
}

// A Logon of the peer, once a reset is done.
#[tactic(auto, unfolding(crate::specs::Rows::first_logon_row))]
fn first_logon_row(state: State, head: &Head, heartbeat: u32, reset: bool, now: Moment) -> Row
    requires { head.now.number ≤ SEQUENCE_MAX }
    ensures { result ≡ first_logon_row state head.now heartbeat reset now }
{
    if head.number < state.expected {
        return low_logon_row(state, head.dup);
    }
    logon_row(state, head.number, heartbeat, reset, now)
}

// A Logon with a number below the expected one.
#[tactic(auto, unfolding(crate::specs::Rows::low_logon_row))]
fn low_logon_row(state: State, dup: bool) -> Row
    ensures { result ≡ low_logon_row state dup }
{
    if dup {
        return Row::silent(state).closing(CloseReason::NoLogon);
    }
    Row::sends(Outbound::Logout, state).closing(CloseReason::TooLow)
}

/// A Logon is answered, and what was lost before it is asked for again.
#[tactic(auto, unfolding(crate::specs::Rows::logon_row))]
pub(crate) fn logon_row(state: State, number: u64, heartbeat: u32, reset: bool, now: Moment) -> Row
    requires { number ≤ SEQUENCE_MAX }
    ensures { result ≡ logon_row state number heartbeat reset now }
{
    let answer = Outbound::Logon { heartbeat, reset };
    let expected = state.expected;
    let opened = state.opened(heartbeat, now);
    if expected == number {
        return Row::sends(answer, opened.counted());
    }
    Row::sends_both(answer, Outbound::asked_again(expected), opened)
}

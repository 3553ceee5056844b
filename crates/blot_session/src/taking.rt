//! What a session does about a frame and about a reply: in place for an Execution Report in its turn, and by the rows of
//! its table for all else.
ghost use Rattle.std.specs.Prelude.{◌≡◌, IfOk, OnErr};
ghost use Rattle.blot_tag.specs.Views.{text_of};
ghost use Rattle.blot_fields.specs.Numbers.{IsNumbered};
ghost use Rattle.blot_session.specs.Calls.{Gives, command_said, ending, on_frame, on_reply, row_of_reply};
ghost use Rattle.blot_session.specs.Rows.{frame_row};
ghost use Rattle.blot_session.specs.Runs.{said_by};
ghost use Rattle.blot_session.specs.Sending.{numbers_borne, numbers_by};
ghost use Rattle.blot_session.specs.States.{closed, IsIdle, IsAwaiting, IsState};

use crate::carrying::{Outcome, go_on, take_row};
use crate::inbound::frame_row;
use crate::replies::reply_row;
use crate::reports::{count, hand_on, is_report_taken, take_report};
use crate::row::{End, Row};
use crate::state::{LinkState, Live, State};
use crate::{Action, NotTaken, SeenReply};
use blot_fields::{FieldFault, Message, command_of, decode, is_out_of_memory};
use blot_tag::Frame;
use blot_time::Moment;
use blot_types::Command;
use std::alloc::{AllocError as NoMemory, Global};

/// What a session does about a frame.
pub(crate) fn take_frame(
    alloc: Global,
    state: &mut State,
    frame: &Frame,
    now: Moment,
) -> Result<Vec<Action>, NoMemory>
    requires within { IsState state.old }
    requires idle { IsIdle state.old }
    ensures ok { IfOk result (Gives (on_frame state.old (said_by (text_of frame.now)) now) state.new) }
    ensures err { OnErr result (state.new ≡ closed state.old) }
    ensures state { IsState state.new }
    ensures bears { IfOk result (λ actions. numbers_borne actions.items ≡ numbers_by state.old (frame_row state.old (said_by (text_of frame.now)) now)) }
{
    let said = decode(alloc, frame);
    if is_out_of_memory(&said) {
        *state = state.closed();
        return Err(NoMemory);
    }
    take_said(alloc, state, &said, now)
}

/// What a session does about a reply. One to an Execution Report only counts it.
#[tactic(auto, using(crate::proofs::InTurnLemmas::report_counted, crate::proofs::InTurnLemmas::counted_state))]
pub(crate) fn take_reply(
    alloc: Global,
    state: &mut State,
    reply: Result<SeenReply, NotTaken>,
    now: Moment,
) -> Result<Vec<Action>, NoMemory>
    requires within { IsState state.old }
    requires awaiting { IsAwaiting state.old }
    ensures ok { IfOk result (Gives (on_reply state.old reply now) state.new) }
    ensures err { OnErr result (state.new ≡ closed (row_of_reply state.old reply).state) }
    ensures state { IsState state.new }
    ensures bears { IfOk result (λ actions. numbers_borne actions.items ≡ numbers_by state.old (row_of_reply state.old reply)) }
{
    if is_report_taken(state, &reply) {
        count(state);
        return Ok(Vec::new(alloc));
    }
    reply_by_row(alloc, state, reply, now)
}

/// What a session does about what a frame says.
pub(crate) fn take_said(
    alloc: Global,
    state: &mut State,
    said: &Result<Message, FieldFault>,
    now: Moment,
) -> Result<Vec<Action>, NoMemory>
    requires within { IsState state.old }
    requires idle { IsIdle state.old }
    requires numbers { IsNumbered said.now }
    ensures ok { IfOk result (Gives (on_frame state.old said.now now) state.new) }
    ensures err { OnErr result (state.new ≡ closed state.old) }
    ensures state { IsState state.new }
    ensures bears { IfOk result (λ actions. numbers_borne actions.items ≡ numbers_by state.old (frame_row state.old said.now now)) }
{
    if take_report(state, said, now) {
        return hand_on(alloc, state, said);
    }
    take_by_row(alloc, state, said, now)
}

// What a session does about what a frame says, by a row of its table.
#[tactic(auto, using(crate::proofs::StateLemmas::closed_state))]
fn take_by_row(
    alloc: Global,
    state: &mut State,
    said: &Result<Message, FieldFault>,
    now: Moment,
) -> Result<Vec<Action>, NoMemory>
    requires within { IsState state.old }
    requires idle { IsIdle state.old }
    requires numbers { IsNumbered said.now }
    ensures ok { IfOk result (Gives (on_frame state.old said.now now) state.new) }
    ensures err { OnErr result (state.new ≡ closed state.old) }
    ensures state { IsState state.new }
    ensures bears { IfOk result (λ actions. numbers_borne actions.items ≡ numbers_by state.old (frame_row state.old said.now now)) }
{
    let closed = state.closed();
    let outcome = take_message(alloc, *state, said, now);
    go_on(state, outcome, closed)
}

// What the table says of what a frame says.
#[tactic(auto, using(crate::proofs::StateLemmas::row_fits_frame, crate::proofs::StateLemmas::same_outcome))]
fn take_message(
    alloc: Global,
    state: State,
    said: &Result<Message, FieldFault>,
    now: Moment,
) -> Result<Outcome, NoMemory>
    requires within { IsState state }
    requires idle { IsIdle state }
    requires numbers { IsNumbered said.now }
    ensures outcome { IfOk result (λ done. Gives (on_frame state said.now now) done.0 done.1) }
    ensures state { IfOk result (λ done. IsState done.0) }
    ensures bears { IfOk result (λ done. numbers_borne done.1.items ≡ numbers_by state (frame_row state said.now now)) }
{
    let row = frame_row(state, said, now);
    let command = command_delivered(alloc, &row, said, &state)?;
    take_row(alloc, state, row, command, now)
}

// The command of a message, where it is delivered.
fn command_delivered(
    alloc: Global,
    row: &Row,
    said: &Result<Message, FieldFault>,
    state: &State,
) -> Result<Option<Command>, NoMemory>
    ensures { IfOk result (λ command. ending row.now.end command ≡ ending row.now.end (command_said said.now state.now.peer)) }
{
    match (row.end, said) {
        (End::Delivers, Ok(message)) => command_of(alloc, message, &state.peer),
        _ => Ok(None),
    }
}

// What a session does about a reply, by a row of its table.
#[tactic(auto, using(crate::proofs::StateLemmas::row_fits_reply, crate::proofs::StateLemmas::closed_row))]
fn reply_by_row(
    alloc: Global,
    state: &mut State,
    reply: Result<SeenReply, NotTaken>,
    now: Moment,
) -> Result<Vec<Action>, NoMemory>
    requires within { IsState state.old }
    requires awaiting { IsAwaiting state.old }
    ensures ok { IfOk result (Gives (on_reply state.old reply now) state.new) }
    ensures err { OnErr result (state.new ≡ closed (row_of_reply state.old reply).state) }
    ensures state { IsState state.new }
    ensures bears { IfOk result (λ actions. numbers_borne actions.items ≡ numbers_by state.old (row_of_reply state.old reply)) }
{
    let row = row_of_reply(*state, reply);
    let closed = row.state.closed();
    let outcome = take_row(alloc, *state, row, None, now);
    go_on(state, outcome, closed)
}

// What a session does about the reply to what it awaits.
fn row_of_reply(state: State, reply: Result<SeenReply, NotTaken>) -> Row
    requires within { IsState state }
    requires awaiting { IsAwaiting state }
    ensures { result ≡ row_of_reply state reply }
{
    let link = state.link;
    match link {
        LinkState::On(
            Live {
                awaited: Some(awaited),
                ..
            },
        ) => reply_row(state, awaited, reply),
        _ => Row::silent(state),
    }
}

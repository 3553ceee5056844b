//! Carries out what a row of the session's table says.
ghost use Rattle.std.specs.Prelude.{◌≡◌, ◌≤◌, ◌+◌, ◌++◌, ◌∷◌, [], Ok, IfOk, OnOk, OnErr};
ghost use Rattle.blot_fields.specs.declared.TheConstants.{SEQUENCE_MAX};
ghost use Rattle.blot_session.specs.Calls.{Gives, behind, behind_all, sent, ending, carried_out, is_spent, outcome_of, spent};
ghost use Rattle.blot_session.specs.Outbound.{text_of};
ghost use Rattle.blot_session.specs.Sending.{number_used, numbers_borne, numbers_by, numbers_from};
ghost use Rattle.blot_session.specs.States.{IsState};
ghost use Rattle.blot_session.specs.Table.{CanSend, Fits, messages_of};
ghost use Rattle.blot_session.specs.declared.action.Action.TheVariants.{Send};

use crate::outbound::Outbound;
use crate::row::{End, Row, Sends};
use crate::state::State;
use crate::writing::text_of;
use crate::{Action, Bytes, CloseReason};
use blot_time::Moment;
use blot_types::Command;
use std::alloc::{AllocError as NoMemory, Global};

/// The last number under which a call begins to send. A call sends two messages at most, so that a peer that counts in
/// nine digits can still follow. This project's rule.
pub(crate) const LAST_NUMBER: u64 = 999_999_990;

/// A session after a call, and what is to be done.
pub(crate) type Outcome = (State, Vec<Action>);

/// Does what a row says, unless the numbers to send are used up.
#[tactic(auto, using(crate::proofs::StateLemmas::carried_state, crate::proofs::StateLemmas::spent_state))]
pub(crate) fn take_row(
    alloc: Global,
    state: State,
    row: Row,
    command: Option<Command>,
    now: Moment,
) -> Result<Outcome, NoMemory>
    requires within { IsState state }
    requires fits { Fits state.next row }
    ensures outcome { IfOk result (λ done. Gives (outcome_of state row command now) done.0 done.1) }
    ensures state { IfOk result (λ done. IsState done.0) }
    ensures bears { IfOk result (λ done. numbers_borne done.1.items ≡ numbers_by state row) }
{
    if is_spent(&state, &row) {
        let (state, actions) = spent(alloc, state)?;
        return Ok((state, actions));
    }
    let (state, actions) = carry_out(alloc, row, command, now)?;
    Ok((state, actions))
}

/// Goes on with what a call gave or, out of memory, closed.
pub(crate) fn go_on(
    state: &mut State,
    outcome: Result<Outcome, NoMemory>,
    closed: State,
) -> Result<Vec<Action>, NoMemory>
    ensures ok { IfOk result (λ actions. outcome ≡ Ok (state.new, actions)) }
    ensures err { OnErr result (state.new ≡ closed) }
{
    match outcome {
        Ok((next, actions)) => {
            *state = next;
            Ok(actions)
        }
        Err(fail) => {
            *state = closed;
            Err(fail)
        }
    }
}

/// Whether the numbers to send are used up, and a row says that something is to be done.
pub(crate) fn is_spent(state: &State, row: &Row) -> bool
    ensures { result ≡ is_spent state.now row.now }
{
    LAST_NUMBER < state.next && row.acts()
}

/// The connection ends, since the numbers to send are used up. No number changes.
pub(crate) fn spent(alloc: Global, state: State) -> Result<Outcome, NoMemory>
    ensures outcome { IfOk result (λ done. Gives (spent state) done.0 done.1) }
    ensures bears { IfOk result (λ done. numbers_borne done.1.items ≡ []) }
{
    let mut actions = Vec::new(alloc);
    actions.push(Action::Close(CloseReason::Spent))?;
    Ok((state.closed(), actions))
}

/// Does what a row says; `command` is what its message brings the book, where it is delivered.
pub(crate) fn carry_out(
    alloc: Global,
    row: Row,
    command: Option<Command>,
    now: Moment,
) -> Result<Outcome, NoMemory>
    requires { CanSend row.sends row.state.next }
    ensures outcome { IfOk result (λ done. Gives (carried_out row command now) done.0 done.1) }
    ensures bears { IfOk result (λ done. numbers_borne done.1.items ≡ numbers_from row.state.next (messages_of row.sends)) }
{
    let Row { sends, end, state } = row;
    let mut actions = Vec::new(alloc);
    let state = send_all(alloc, &mut actions, state, sends, now)?;
    push_end(&mut actions, end, command)?;
    Ok((state, actions))
}

// Sends the messages of a row: the session after them.
fn send_all(
    alloc: Global,
    actions: &mut Vec<Action>,
    state: State,
    sends: Sends,
    now: Moment,
) -> Result<State, NoMemory>
    requires { CanSend sends state.next }
    ensures state { IfOk result (λ behind. behind ≡ behind_all state (messages_of sends) now) }
    ensures actions { OnOk result (actions.new.items ≡ actions.old.items ++ sent state (messages_of sends) now) }
    ensures bears { OnOk result (numbers_borne actions.new.items ≡ numbers_borne actions.old.items ++ numbers_from state.next (messages_of sends)) }
{
    match sends {
        Sends::Nothing => Ok(state),
        Sends::One(message) => send(alloc, actions, state, &message, now),
        Sends::Two(first, second) => {
            let state = send(alloc, actions, state, &first, now)?;
            send(alloc, actions, state, &second, now)
        }
    }
}

// Sends a message: the session after it.
fn send(
    alloc: Global,
    actions: &mut Vec<Action>,
    state: State,
    message: &Outbound,
    now: Moment,
) -> Result<State, NoMemory>
    requires low { 1 ≤ state.next }
    requires high { state.next ≤ SEQUENCE_MAX }
    ensures state { IfOk result (λ next. next ≡ behind state message.now now) }
    ensures actions { OnOk result (actions.new.items ≡ actions.old.items ++ Send (text_of state message.now now) ∷ []) }
    ensures bears { OnOk result (numbers_borne actions.new.items ≡ numbers_borne actions.old.items ++ number_used message.now state.next) }
{
    let text = text_of(alloc, &state, message, now)?;
    actions.push(Action::Send(Bytes::new(text)))?;
    let state = State {
        next: message.next_behind(state.next),
        ..state
    };
    Ok(state.spoken(now))
}

// Adds how a call ends, after its sends.
fn push_end(actions: &mut Vec<Action>, end: End, command: Option<Command>) -> Result<(), NoMemory>
    ensures actions { OnOk result (actions.new.items ≡ actions.old.items ++ ending end command) }
    ensures bears { OnOk result (numbers_borne actions.new.items ≡ numbers_borne actions.old.items) }
{
    match (end, command) {
        (End::Delivers, Some(command)) => actions.push(Action::Deliver(command))?,
        (End::Closes(reason), _) => actions.push(Action::Close(reason))?,
        _ => {}
    }
    Ok(())
}

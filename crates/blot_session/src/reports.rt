//! Execution Reports about fills in their turn, and the replies to them. Most of what comes is one of these, so the
//! session changes in place for them, and no row of its table is made. What is done is what the table says.
ghost use Rattle.std.specs.Prelude.{◌≡◌, ◌≤◌, true, false, None, IfOk, OnOk, OnErr};
ghost use Rattle.blot_fields.specs.declared.TheConstants.{SEQUENCE_MAX};
ghost use Rattle.blot_fields.specs.Numbers.{IsNumbered};
ghost use Rattle.blot_session.specs.Calls.{GivesCommand, command_said, delivery_of, on_frame};
ghost use Rattle.blot_session.specs.InTurn.{delivering, is_about_fill, is_of_report, is_on, is_report_in_turn, is_report_said, is_report_taken};
ghost use Rattle.blot_session.specs.States.{answered, changed, closed, counted, IsState};

use crate::carrying::LAST_NUMBER;
use crate::state::{Awaited, LinkState, State};
use crate::{Action, NotTaken, SeenReply};
use blot_fields::{Body, FieldFault, Message, Report, command_of};
use blot_time::Moment;
use blot_types::Text64;
use std::alloc::{AllocError as NoMemory, Global};

// Whether a message is the expected Execution Report about a fill, of the peer, at a session that is on and has numbers to
// send.
fn is_report_in_turn(state: &State, message: &Message) -> bool
    ensures { result ≡ is_report_in_turn state.now message.now }
{
    is_on(&state.link)
        && state.next <= LAST_NUMBER
        && is_about_fill(&message.body)
        && message.head.number == state.expected
        && state.is_from_peer(&message.head)
}

/// Whether a frame says such a report. Then it is taken, and the reply to the command that it brings is awaited. Otherwise
/// nothing has changed. It takes no memory.
#[tactic(auto, using(crate::proofs::InTurnLemmas::report_in_turn, crate::proofs::InTurnLemmas::delivering_state))]
pub(crate) fn take_report(
    state: &mut State,
    said: &Result<Message, FieldFault>,
    now: Moment,
) -> bool
    requires within { IsState state.old }
    requires numbers { IsNumbered said.now }
    ensures report { result ≡ is_report_said state.old said.now }
    ensures taken { result ≡ true → GivesCommand (on_frame state.old said.now now) state.new (command_said said.now state.old.peer) }
    ensures other { result ≡ false → state.new ≡ state.old }
    ensures state { IsState state.new }

    // Only the connection has changed.
    ensures rest { closed state.new ≡ closed state.old }
{
    match said {
        Ok(message) if is_report_in_turn(state, message) => {
            deliver_on(&mut state.link, now);
            true
        }
        Ok(_) | Err(_) => false,
    }
}

/// Hands on the command of a report that was taken, as the only action. Out of memory, the session is closed.
pub(crate) fn hand_on(
    alloc: Global,
    state: &mut State,
    said: &Result<Message, FieldFault>,
) -> Result<Vec<Action>, NoMemory>
    ensures ok { IfOk result (λ actions. actions.items ≡ delivery_of (command_said said.now state.old.peer)) }
    ensures same { OnOk result (state.new ≡ state.old) }
    ensures err { OnErr result (state.new ≡ closed state.old) }
{
    let actions = delivery_of(alloc, said, &state.peer);
    if actions.is_err() {
        *state = state.closed();
    }
    actions
}

/// Whether a reply says what became of the command of an Execution Report.
pub(crate) fn is_report_taken(state: &State, reply: &Result<SeenReply, NotTaken>) -> bool
    ensures { result ≡ is_report_taken state.now reply.now }
{
    let LinkState::On(live) = &state.link else {
        return false;
    };
    is_of_report(&live.awaited) && reply.is_ok()
}

/// Counts a report whose command was taken. Nothing is sent.
pub(crate) fn count(state: &mut State)
    requires { state.old.expected ≤ SEQUENCE_MAX }
    ensures { state.new ≡ counted (answered state.old) }
{
    answer_on(&mut state.link);
    state.expected += 1;
}

// Whether a connection is on.
fn is_on(link: &LinkState) -> bool
    ensures { result ≡ is_on link.now }
{
    matches!(link, LinkState::On(_))
}

// Whether a message is an Execution Report about a fill.
fn is_about_fill(body: &Body) -> bool
    ensures { result ≡ is_about_fill body.now }
{
    match body {
        Body::Report(Report::Other) => false,
        Body::Report(_) => true,
        _ => false,
    }
}

// Whether what awaits its reply is an Execution Report's command.
fn is_of_report(awaited: &Option<Awaited>) -> bool
    ensures { result ≡ is_of_report awaited.now }
{
    matches!(awaited, Some(Awaited::Report))
}

// The command that a frame brings, as the only action, if it brings one.
fn delivery_of(
    alloc: Global,
    said: &Result<Message, FieldFault>,
    peer: &Text64,
) -> Result<Vec<Action>, NoMemory>
    ensures { IfOk result (λ actions. actions.items ≡ delivery_of (command_said said.now peer.now)) }
{
    let Ok(message) = said else {
        return Ok(Vec::new(alloc));
    };
    let Some(command) = command_of(alloc, message, peer)? else {
        return Ok(Vec::new(alloc));
    };
    let mut actions = Vec::with_capacity(alloc, 1)?;
    actions.push_reserved(Action::Deliver(command));
    Ok(actions)
}

// A frame came, whose command is delivered.
fn deliver_on(link: &mut LinkState, now: Moment)
    ensures { link.new ≡ delivering now link.old }
{
    if let LinkState::On(live) = link {
        live.received = now;
        live.asked = None;
        live.awaited = Some(Awaited::Report);
    }
}

// No command awaits its reply any more.
fn answer_on(link: &mut LinkState)
    ensures { link.new ≡ changed (λ live. record live { awaited = None }) link.old }
{
    if let LinkState::On(live) = link {
        live.awaited = None;
    }
}

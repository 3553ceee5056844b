//! Rows of a session with a clock: what it sends, delivers and closes for, and after `:` the number that it expects then and
//! its phase.
ghost use Rattle.std.specs.Prelude.{◌≤◌, ◌+◌, IfSome};
ghost use Rattle.blot_fields.specs.declared.TheConstants.{SEQUENCE_MAX};

use crate::state::State;
use crate::texts::show_bytes;
use blot_fields::SEQUENCE_MAX;
use blot_session::{Action, NotTaken, SeenReply, Session};
use blot_tag::Reader;
use blot_time::Moment;
use blot_types::{Command, Text64};
use std::alloc::{AllocError as NoMemory, Global};

// What a row can't be played for.
const OUT_OF_TURN: &str = "out of turn ";

/// Shows a row of a session; false for any other.
pub fn answer(
    state: &mut State,
    shown: &mut String,
    kind: &str,
    text: &str,
) -> Result<bool, NoMemory> {
    match kind {
        "session" => state.session = Session::new(state.own, state.peer),
        "resume" => resume(state, shown, text)?,
        "at" => return set_clock(state, shown),
        "again" => state.session.wait_again(),
        "close" => close(&mut state.session, shown)?,
        "tick" => tick(state.alloc, &mut state.session, state.now, shown)?,
        "stop" => stop(state.alloc, &mut state.session, state.now, shown)?,
        "reply" => reply(state, shown, text)?,
        "frame" => frame(state, shown)?,
        _ => return Ok(false),
    }
    let session = &state.session;
    write!(shown, ": {} {:?}", session.expected(), session.phase())?;
    Ok(true)
}

// A session begins with the two numbers of a row: the one that it expects, and the one that it sends next.
fn resume(state: &mut State, shown: &mut String, text: &str) -> Result<(), NoMemory> {
    let (expected, next) = text.split_once(" ").unwrap_or((text, ""));
    match (number_of(expected), number_of(next)) {
        (Some(expected), Some(next)) => {
            state.session = Session::resume(state.own, state.peer, expected, next);
            Ok(())
        }
        _ => shown.push_str("no numbers "),
    }
}

// A number that a session can begin with.
fn number_of(text: &str) -> Option<u64>
    ensures { IfSome result (λ number. (1 ≤ number) × (number ≤ SEQUENCE_MAX + 1)) }
{
    match text.parse::<u64>() {
        Ok(number) if 1 <= number && number <= SEQUENCE_MAX + 1 => Some(number),
        _ => None,
    }
}

// Sets the clock of the session.
fn set_clock(state: &mut State, shown: &mut String) -> Result<bool, NoMemory> {
    match Moment::read(&state.bytes) {
        Ok(now) => {
            state.now = now;
            shown.push_str("set")?
        }
        Err(why) => write!(shown, "{why}")?,
    }
    Ok(true)
}

// The connection ends.
fn close(session: &mut Session, shown: &mut String) -> Result<(), NoMemory> {
    if session.is_awaiting() {
        return shown.push_str(OUT_OF_TURN);
    }
    session.on_close();
    Ok(())
}

// A moment passes.
fn tick(
    alloc: Global,
    session: &mut Session,
    now: Moment,
    shown: &mut String,
) -> Result<(), NoMemory> {
    if session.is_awaiting() {
        return shown.push_str(OUT_OF_TURN);
    }
    let actions = session.on_tick(alloc, now)?;
    show_actions(shown, &actions)
}

// The day ends.
fn stop(
    alloc: Global,
    session: &mut Session,
    now: Moment,
    shown: &mut String,
) -> Result<(), NoMemory> {
    if session.is_awaiting() {
        return shown.push_str(OUT_OF_TURN);
    }
    let actions = session.on_stop(alloc, now)?;
    show_actions(shown, &actions)
}

// The reply that a row brings: `accepted`, the number of a refusal, or any other word where the command isn't taken.
fn reply_of(text: &str) -> Result<SeenReply, NotTaken> {
    match text.parse::<u8>() {
        Ok(number) => Ok(SeenReply::Refused(number)),
        Err(_) if text == "accepted" => Ok(SeenReply::Accepted),
        Err(_) => Err(NotTaken),
    }
}

// The reply to what was delivered comes.
fn reply(state: &mut State, shown: &mut String, text: &str) -> Result<(), NoMemory> {
    let session = &mut state.session;
    if !session.is_awaiting() {
        return shown.push_str(OUT_OF_TURN);
    }
    let actions = session.on_reply(state.alloc, reply_of(text), state.now)?;
    show_actions(shown, &actions)
}

// A frame comes.
fn frame(state: &mut State, shown: &mut String) -> Result<(), NoMemory> {
    let session = &mut state.session;
    if session.is_awaiting() {
        return shown.push_str(OUT_OF_TURN);
    }
    state.reader = Reader::new(state.alloc);
    state.reader.feed(&state.bytes)?;
    let Some(frame) = state.reader.next()? else {
        return shown.push_str("no frame ");
    };
    let actions = session.on_frame(state.alloc, &frame, state.now)?;
    show_actions(shown, &actions)
}

// Actions, one after the other.
fn show_actions(shown: &mut String, actions: &[Action]) -> Result<(), NoMemory> {
    for action in actions {
        match action {
            Action::Send(bytes) => show_bytes(shown, bytes.as_slice(), '|')?,
            Action::Deliver(command) => show_command(shown, command)?,
            Action::Close(reason) => write!(shown, "close {}", *reason as u8)?,
        }
        shown.push(' ')?;
    }
    Ok(())
}

// A command: what it asks, and its own identifier.
fn show_command(shown: &mut String, command: &Command) -> Result<(), NoMemory> {
    match command {
        Command::Trade(trade) => show_word(shown, "trade ", &trade.key.id),
        Command::Correct(correct) => show_word(shown, "correct ", &correct.key.id),
        Command::Bust(bust) => show_word(shown, "bust ", &bust.key.id),
        Command::AllocNew(new) => show_word(shown, "allocate ", &new.key.id),
        Command::AllocReplace(replace) => show_word(shown, "replace ", &replace.key.id),
        Command::AllocCancel(cancel) => show_word(shown, "cancel ", &cancel.key.id),
        Command::Withdraw(_) => shown.push_str("withdraw"),
    }
}

// A word and an identifier.
fn show_word(shown: &mut String, word: &str, id: &Text64) -> Result<(), NoMemory> {
    shown.push_str(word)?;
    show_bytes(shown, id.bytes(), '|')
}

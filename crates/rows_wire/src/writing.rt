//! Rows of messages in the making: the frames that they become, and what they refuse.

use crate::state::State;
use crate::texts::show_bytes;
use blot_tag::{FrameText, Reader, WriteFault};
use std::alloc::AllocError as NoMemory;

/// Shows a row of a message in the making; false for any other.
pub fn answer(
    state: &mut State,
    shown: &mut String,
    kind: &str,
    text: &str,
) -> Result<bool, NoMemory> {
    match kind {
        "begin" => begin(state, shown)?,
        "put" => put(state, shown, text)?,
        "data" => data(state, shown)?,
        "finish" => finish(state, shown)?,
        _ => return Ok(false),
    }
    Ok(true)
}

// What became of a field.
fn show_put(shown: &mut String, put: Result<(), WriteFault>) -> Result<(), NoMemory> {
    match put {
        Ok(()) => shown.push_str("put"),
        Err(fault) => write!(shown, "{fault:?}"),
    }
}

// A message of a kind begins.
fn begin(state: &mut State, shown: &mut String) -> Result<(), NoMemory> {
    if state.bytes.is_empty() {
        return shown.push_str("no kind");
    }
    match FrameText::new(state.alloc, &state.bytes) {
        Ok(text) => {
            state.text = Some(text);
            shown.push_str("begun")
        }
        Err(fault) => write!(shown, "{fault:?}"),
    }
}

// Puts a field, by its tag.
fn put_field(text: &mut FrameText, tag: &str, value: &[u8]) -> Result<(), WriteFault> {
    match tag {
        "34" => text.put(34, value),
        "49" => text.put(49, value),
        "52" => text.put(52, value),
        "56" => text.put(56, value),
        _ => text.put(58, value),
    }
}

// Puts a field: two digits of its tag, `=` and its value.
fn put(state: &mut State, shown: &mut String, text: &str) -> Result<(), NoMemory> {
    let (tag, _) = text.split_once("=").unwrap_or((text, ""));
    let (Some(message), Some(value)) = (&mut state.text, state.bytes.get(3..)) else {
        return shown.push_str("no message");
    };
    show_put(shown, put_field(message, tag, value))
}

// Puts data that looks like a trailer, after its length.
#[tactic(auto, using(crate::proofs::LastLemmas::last_of_put))]
fn put_data(text: &mut FrameText) -> Result<(), WriteFault> {
    text.put(354, b"10")?;
    text.put(355, b"abc\x0110=000")
}

// The same, into the message in the making.
fn data(state: &mut State, shown: &mut String) -> Result<(), NoMemory> {
    match &mut state.text {
        Some(message) => show_put(shown, put_data(message)),
        None => shown.push_str("no message"),
    }
}

// The frame of the message. A new reader is fed with it.
fn finish(state: &mut State, shown: &mut String) -> Result<(), NoMemory> {
    let Some(message) = state.text.take() else {
        return shown.push_str("no message");
    };
    let frame = message.finish()?;
    state.reader = Reader::new(state.alloc);
    state.reader.feed(&frame)?;
    show_bytes(shown, &frame, '|')
}

//! Rows of messages: the first fault of each, and its sender.

use crate::state::State;
use crate::texts::show_bytes;
use blot_fields::{decode, sender_of};
use blot_tag::{Frame, Reader};
use std::alloc::{AllocError as NoMemory, Global};

/// Shows a row of messages; false for any other.
pub fn answer(state: &mut State, shown: &mut String, kind: &str) -> Result<bool, NoMemory> {
    match kind {
        "message" | "sender" => {}
        _ => return Ok(false),
    }
    state.reader = Reader::new(state.alloc);
    state.reader.feed(&state.bytes)?;
    match state.reader.next()? {
        Some(frame) if kind == "message" => message(state.alloc, shown, &frame)?,
        Some(frame) => sender(shown, &frame)?,
        None => shown.push_str("no frame")?,
    }
    Ok(true)
}

// The fault of a message: its tag, its reason, and whether the header can be known.
fn message(alloc: Global, shown: &mut String, frame: &Frame) -> Result<(), NoMemory> {
    match &decode(alloc, frame) {
        Ok(_) => shown.push_str("ok"),
        Err(fault) => {
            let head = if fault.head.is_some() { "head" } else { "none" };
            write!(shown, "{} {} {head}", fault.tag, fault.reason as u32)
        }
    }
}

// Who sends a frame.
fn sender(shown: &mut String, frame: &Frame) -> Result<(), NoMemory> {
    match sender_of(frame) {
        Some(sender) => show_bytes(shown, sender.bytes(), '|'),
        None => shown.push_str("none"),
    }
}

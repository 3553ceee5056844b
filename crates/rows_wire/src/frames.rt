//! Rows of streams: the frames in them, their fields, and how many bytes are passed over.

use crate::state::State;
use crate::texts::show_bytes;
use blot_tag::{Frame, Reader};
use std::alloc::{AllocError as NoMemory, Global};

/// Shows a row of streams; false for any other.
pub fn answer(state: &mut State, shown: &mut String, kind: &str) -> Result<bool, NoMemory> {
    match kind {
        "stream" => stream(state, shown)?,
        "reader" => {
            state.reader = Reader::new(state.alloc);
            shown.push_str("new")?
        }
        "feed" => {
            state.reader.feed(&state.bytes)?;
            shown.push_str("fed")?
        }
        "peek" => peek(&mut state.reader, shown)?,
        "next" => next(&mut state.reader, shown)?,
        "skipped" => write!(shown, "{}", state.reader.skipped())?,
        _ => return Ok(false),
    }
    Ok(true)
}

// The next frame, which is left where it is.
fn peek(reader: &mut Reader, shown: &mut String) -> Result<(), NoMemory> {
    match reader.peek()? {
        Some(frame) => show_fields(shown, &frame),
        None => shown.push_str("none"),
    }
}

// The next frame.
fn next(reader: &mut Reader, shown: &mut String) -> Result<(), NoMemory> {
    match reader.next()? {
        Some(frame) => show_fields(shown, &frame),
        None => shown.push_str("none"),
    }
}

// Shows a frame's fields, up to the first fault, with its tag and its reason. An SOH within a value is shown as `^`, so
// that no other split looks the same.
fn show_fields(shown: &mut String, frame: &Frame) -> Result<(), NoMemory> {
    for item in frame.fields() {
        match item {
            Ok(field) => {
                write!(shown, "{}=", field.tag)?;
                show_bytes(shown, field.value, '^')?;
                shown.push('|')?;
            }
            Err(fault) => write!(shown, "fault {} {}", fault.tag, fault.reason as u32)?,
        }
    }
    Ok(())
}

// Shows all frames that the reader has, each with a `;` at its end.
fn show_frames(shown: &mut String, reader: &mut Reader) -> Result<(), NoMemory> {
    while let Some(frame) = reader.next()? {
        show_fields(shown, &frame)?;
        shown.push(';')?;
    }
    Ok(())
}

// Shows what a new reader finds in two pieces, and how many bytes it passes over.
fn show_found(
    alloc: Global,
    reader: &mut Reader,
    shown: &mut String,
    first: &[u8],
    second: &[u8],
) -> Result<(), NoMemory> {
    *reader = Reader::new(alloc);
    reader.feed(first)?;
    show_frames(shown, reader)?;
    reader.feed(second)?;
    show_frames(shown, reader)?;
    write!(shown, "skipped {}", reader.skipped())
}

// Shows what a new reader finds byte by byte, and how many bytes it passes over.
fn show_bytewise(
    alloc: Global,
    reader: &mut Reader,
    shown: &mut String,
    bytes: &[u8],
) -> Result<(), NoMemory> {
    *reader = Reader::new(alloc);
    for byte in bytes {
        reader.feed(&[*byte])?;
        show_frames(shown, reader)?;
    }
    write!(shown, "skipped {}", reader.skipped())
}

// What a stream holds: the same byte by byte, and wherever it is cut in two.
fn stream(state: &mut State, shown: &mut String) -> Result<(), NoMemory> {
    state.whole.clear();
    let bytes = state.bytes.as_slice();
    show_found(state.alloc, &mut state.reader, &mut state.whole, bytes, b"")?;
    shown.push_str(state.whole.as_str())?;
    state.pieces.clear();
    show_bytewise(state.alloc, &mut state.reader, &mut state.pieces, bytes)?;
    if state.pieces.as_str() != state.whole.as_str() {
        shown.push_str(", but not byte by byte")?;
    }
    for cut in 0..bytes.len() {
        state.pieces.clear();
        let (first, second) = bytes.split_at(cut);
        show_found(
            state.alloc,
            &mut state.reader,
            &mut state.pieces,
            first,
            second,
        )?;
        if state.pieces.as_str() != state.whole.as_str() {
            write!(shown, ", but not where it is cut at {cut}")?;
        }
    }
    Ok(())
}

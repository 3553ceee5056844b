//! A row: its kind, a space, and its text.

use crate::state::State;
use crate::texts::put_text;
use crate::{decimals, frames, messages, sessions, times, writing};
use std::alloc::AllocError as NoMemory;

/// Shows what a row answers; nothing for a heading or an empty line.
pub fn answer(state: &mut State, shown: &mut String, row: &str) -> Result<(), NoMemory> {
    if row.starts_with("#") || row.is_empty() {
        return Ok(());
    }
    let (kind, text) = row.split_once(" ").unwrap_or((row, ""));
    state.bytes.clear();
    put_text(&mut state.bytes, text)?;
    shown.push_str(" => ")?;
    if decimals::answer(shown, kind, text, &state.bytes)?
        || times::answer(shown, kind, text, &state.bytes)?
        || messages::answer(state, shown, kind)?
        || frames::answer(state, shown, kind)?
        || writing::answer(state, shown, kind, text)?
        || sessions::answer(state, shown, kind, text)?
    {
        return Ok(());
    }
    shown.push_str("no such row")
}

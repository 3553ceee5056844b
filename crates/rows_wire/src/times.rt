//! Rows of moments and days.

use crate::texts::show_bytes;
use blot_time::{Day, Moment};
use std::alloc::AllocError as NoMemory;

/// Shows a row of moments or days; false for any other.
pub fn answer(shown: &mut String, kind: &str, text: &str, bytes: &[u8]) -> Result<bool, NoMemory> {
    match kind {
        "moment" => moment(shown, bytes)?,
        "millis" => millis(shown, text)?,
        "day" => day(shown, bytes)?,
        "earlier" => earlier(shown, text)?,
        _ => return Ok(false),
    }
    Ok(true)
}

// A moment: its milliseconds since 1970, its text and its day.
fn show_moment(shown: &mut String, moment: Moment) -> Result<(), NoMemory> {
    write!(shown, "{} ", moment.millis())?;
    show_bytes(shown, &moment.write(), '|')?;
    shown.push(' ')?;
    show_bytes(shown, &moment.day().write(), '|')
}

// What the text of a moment names.
fn moment(shown: &mut String, bytes: &[u8]) -> Result<(), NoMemory> {
    match Moment::read(bytes) {
        Ok(moment) => show_moment(shown, moment),
        Err(why) => write!(shown, "{why}"),
    }
}

// The moment of so many milliseconds.
fn millis(shown: &mut String, text: &str) -> Result<(), NoMemory> {
    match Moment::from_millis(text.parse::<i64>().unwrap_or(7)) {
        Some(moment) => show_moment(shown, moment),
        None => shown.push_str("none"),
    }
}

// What the text of a day names.
fn day(shown: &mut String, bytes: &[u8]) -> Result<(), NoMemory> {
    match Day::read(bytes) {
        Ok(day) => show_bytes(shown, &day.write(), '|'),
        Err(why) => write!(shown, "{why}"),
    }
}

// Whether one day comes before another.
fn earlier(shown: &mut String, text: &str) -> Result<(), NoMemory> {
    let (first, second) = text.split_once(" ").unwrap_or((text, ""));
    match (Day::read(first.as_bytes()), Day::read(second.as_bytes())) {
        (Ok(first), Ok(second)) => write!(shown, "{}", first < second),
        _ => shown.push_str("none"),
    }
}

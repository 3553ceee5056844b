//! Texts of rows, and bytes as rows show them.

use std::alloc::AllocError as NoMemory;

// More bytes than these are shown by both their ends.
const SHOWN_MAX: usize = 400;

// How many bytes of each end.
const END: usize = 40;

/// Puts the bytes of a row's text: `|` is SOH, and `{65 times a}` is 65 letters.
pub fn put_text(bytes: &mut Vec<u8>, text: &str) -> Result<(), NoMemory> {
    for part in text.split('{') {
        match part.split_once("}") {
            Some((repeated, rest)) => {
                put_repeated(bytes, repeated)?;
                put_plain(bytes, rest)?;
            }
            None => put_plain(bytes, part)?,
        }
    }
    Ok(())
}

// Puts a text as many times as it says.
fn put_repeated(bytes: &mut Vec<u8>, repeated: &str) -> Result<(), NoMemory> {
    let (times, text) = repeated.split_once(" times ").unwrap_or(("1", repeated));
    for _ in 0..times.parse::<u32>().unwrap_or(0) {
        put_plain(bytes, text)?;
    }
    Ok(())
}

// Puts a text, each `|` of it as SOH.
fn put_plain(bytes: &mut Vec<u8>, text: &str) -> Result<(), NoMemory> {
    for byte in text.as_bytes() {
        bytes.push(if *byte == b'|' { 1 } else { *byte })?;
    }
    Ok(())
}

/// Shows bytes, each SOH of them as this sign; many bytes by both their ends and their number.
pub fn show_bytes(shown: &mut String, bytes: &[u8], soh: char) -> Result<(), NoMemory> {
    if bytes.len() <= SHOWN_MAX {
        return show_all(shown, bytes, soh);
    }
    let (front, _) = bytes.split_at(END.min(bytes.len()));
    let (_, back) = bytes.split_at(bytes.len().saturating_sub(END));
    show_all(shown, front, soh)?;
    write!(shown, " .. {} bytes .. ", bytes.len())?;
    show_all(shown, back, soh)
}

// Shows bytes, each SOH of them as this sign.
fn show_all(shown: &mut String, bytes: &[u8], soh: char) -> Result<(), NoMemory> {
    for byte in bytes {
        shown.push(if *byte == 1 { soh } else { char::from(*byte) })?;
    }
    Ok(())
}

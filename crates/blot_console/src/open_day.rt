//! The two lines that an open day has and no other: what they ask, and how `sessions` is answered.
ghost use Rattle.std.specs.Prelude.{◌≡◌, ◌++◌, IfOk, OnOk};
ghost use Rattle.blot_console.specs.OpenDay.{day_ask_of, day_asked, day_parsed, day_words, on_text, session_text, sessions_answer};

use crate::found::put_end;
use crate::kinds::is_word;
use crate::telling::{put_number, put_word};
use crate::words::Words;
use crate::{LINE_MAX, LineFault};
use blot_types::Text64;
use std::alloc::{AllocError as NoMemory, Global};

/// What a line asks that only an open day has.
#[derive(Clone, Copy, Debug, PartialEq, Eq)]
pub enum DayAsk {
    /// That the day is closed.
    Close,
    /// The session of each peer.
    Sessions,
}

/// The session of a peer, as an operator is told of it.
#[derive(Clone, Copy, Debug, PartialEq, Eq)]
pub struct SessionLine {
    /// The peer.
    pub peer: Text64,
    /// Whether a connection has the session.
    pub is_on: bool,
    /// The number that the peer's next message is expected to have.
    pub expected: u64,
}

/// What a line asks where its first word is one that only an open day knows, or its first fault. None says that it is no such
/// line, and asks what `parse_line` says. The line is given without its end. This project's rule.
#[tactic(auto, unfolding(crate::specs::OpenDay::day_parsed))]
pub fn parse_day_line(line: &[u8]) -> Option<Result<DayAsk, LineFault>>
    ensures { result ≡ day_parsed line.now }
{
    if line.len() > LINE_MAX {
        return None;
    }
    day_words(&Words::of(line))
}

// What a line of words asks of an open day.
#[tactic(auto, unfolding(crate::specs::OpenDay::day_words))]
fn day_words(words: &Words) -> Option<Result<DayAsk, LineFault>>
    ensures { result ≡ day_words words.now }
{
    let ask = day_ask_of(words.at(0))?;
    Some(day_asked(ask, words))
}

// What a first word asks of an open day.
#[tactic(auto, unfolding(crate::specs::OpenDay::day_ask_of))]
fn day_ask_of(word: &[u8]) -> Option<DayAsk>
    ensures { result ≡ day_ask_of word.now }
{
    if is_word(word, b"close") {
        Some(DayAsk::Close)
    } else if is_word(word, b"sessions") {
        Some(DayAsk::Sessions)
    } else {
        None
    }
}

// That no word follows the first.
fn day_asked(ask: DayAsk, words: &Words) -> Result<DayAsk, LineFault>
    ensures { result ≡ day_asked ask words.now }
{
    if words.count() == 1 {
        Ok(ask)
    } else {
        Err(LineFault::WrongCount)
    }
}

/// Lines of sessions, and how many they are. An error is out of memory.
pub(crate) fn sessions_text(alloc: Global, lines: &[SessionLine]) -> Result<Vec<u8>, NoMemory>
    ensures { IfOk result (λ text. text.items ≡ sessions_answer lines.now) }
{
    let mut text = Vec::new(alloc);
    for line in lines {
        put_session(alloc, &mut text, line)?;
    }
    put_end(alloc, &mut text, lines.len())?;
    Ok(text)
}

// The line of a session.
fn put_session(alloc: Global, text: &mut Vec<u8>, line: &SessionLine) -> Result<(), NoMemory>
    ensures { OnOk result (text.new.items ≡ text.old.items ++ session_text line.now) }
{
    text.extend_from_slice(b"session")?;
    put_word(text, line.peer.bytes())?;
    put_word(text, on_text(line.is_on))?;
    put_number(alloc, text, line.expected)?;
    text.push(b'\n')?;
    Ok(())
}

// Whether a session is on, in a word.
fn on_text(is_on: bool) -> &'static [u8]
    ensures { result.now ≡ on_text is_on }
{
    if is_on { b"on" } else { b"off" }
}

//! The line by which an operator's connection names itself, and what is answered until it has a name.
ghost use Rattle.std.specs.Prelude.{◌≡◌, IfOk};
ghost use Rattle.blot_console.specs.Naming.{name_in, name_parsed, naming_text};

use crate::answer::bad_text;
use crate::forms::Form;
use crate::kinds::is_word;
use crate::telling::{put_word, word_line};
use crate::words::Words;
use crate::{LINE_MAX, LineFault};
use blot_types::Text64;
use std::alloc::{AllocError as NoMemory, Global};

/// What a connection of an operator is answered until it has a name.
#[derive(Clone, Copy, Debug, PartialEq, Eq)]
pub enum Naming {
    /// The name is the connection's from now on.
    Named(Text64),
    /// Another connection has the name.
    Taken,
    /// As many names came as a day has.
    Full,
    /// The line gives no name.
    Bad(LineFault),
}

/// The name that a line gives an operator's connection, by its words `operator` and the name, or the line's first fault. The line is given
/// without its end. This project's rule.
#[tactic(auto, unfolding(crate::specs::Naming::name_parsed))]
pub fn parse_name(line: &[u8]) -> Result<Text64, LineFault>
    ensures { result ≡ name_parsed line.now }
{
    if line.len() > LINE_MAX {
        return Err(LineFault::TooLong);
    }
    name_in(&Words::of(line))
}

// The name that a line of words gives.
#[tactic(auto, unfolding(crate::specs::Naming::name_in))]
fn name_in(words: &Words) -> Result<Text64, LineFault>
    ensures { result ≡ name_in words.now }
{
    if !is_word(words.at(0), b"operator") {
        return Err(LineFault::UnknownWord);
    }
    if words.count() != 2 {
        return Err(LineFault::WrongCount);
    }
    match Text64::from_word(words.at(1)) {
        Some(name) => Ok(name),
        None => Err(LineFault::BadValue(1)),
    }
}

/// The text of an answer to such a line, one line. An error is out of memory. This project's rule.
pub fn naming_text(alloc: Global, naming: &Naming) -> Result<Vec<u8>, NoMemory>
    ensures { IfOk result (λ text. text.items ≡ naming_text naming.now) }
{
    match naming {
        Naming::Named(name) => named_text(alloc, name),
        Naming::Taken => word_line(alloc, b"taken"),
        Naming::Full => word_line(alloc, b"full"),
        Naming::Bad(fault) => bad_text(alloc, *fault),
    }
}

// The line that gives a connection its name.
fn named_text(alloc: Global, name: &Text64) -> Result<Vec<u8>, NoMemory>
    ensures { IfOk result (λ text. text.items ≡ naming_text (Naming.Named name.now)) }
{
    let mut text = Vec::new(alloc);
    text.extend_from_slice(b"operator")?;
    put_word(&mut text, name.bytes())?;
    text.push(b'\n')?;
    Ok(text)
}

//! How replies and refusals are told.
ghost use Rattle.std.specs.Prelude.{◌≡◌, ◌++◌, IfOk, OnOk};
ghost use Rattle.blot_console.specs.Replies.{word_text, number_text, exec_text, quantities_text, values_text, refused_text, word_line, number_line, reply_text, IsTold};

use blot_decimal::QtySum;
use blot_desk::Reply;
use blot_types::{ExecKey, Refused};
use std::alloc::{AllocError as NoMemory, Global};

/// The line of a reply.
pub(crate) fn reply_text(alloc: Global, reply: &Reply) -> Result<Vec<u8>, NoMemory>
    requires { IsTold reply.now }
    ensures { IfOk result (λ text. text.items ≡ reply_text reply.now) }
{
    match reply {
        Reply::Accepted(number) => number_line(alloc, b"accepted", *number),
        Reply::Refused(refused) => refused_text(alloc, refused),
        Reply::Undone(number) => number_line(alloc, b"undone", *number),
        Reply::Redone(number) => number_line(alloc, b"redone", *number),
        Reply::Order(_) | Reply::Position(_) => unreachable!(),
    }
}

/// A line of one word.
pub(crate) fn word_line(alloc: Global, name: &[u8]) -> Result<Vec<u8>, NoMemory>
    ensures { IfOk result (λ text. text.items ≡ word_line name.now) }
{
    let mut text = Vec::new(alloc);
    text.extend_from_slice(name)?;
    text.push(b'\n')?;
    Ok(text)
}

/// A line of a word and a number.
pub(crate) fn number_line(alloc: Global, name: &[u8], number: u64) -> Result<Vec<u8>, NoMemory>
    ensures { IfOk result (λ text. text.items ≡ number_line name.now number) }
{
    let mut text = Vec::new(alloc);
    text.extend_from_slice(name)?;
    put_number(alloc, &mut text, number)?;
    text.push(b'\n')?;
    Ok(text)
}

/// The line of a refusal: its number, its name and its values.
pub(crate) fn refused_text(alloc: Global, refused: &Refused) -> Result<Vec<u8>, NoMemory>
    ensures { IfOk result (λ text. text.items ≡ refused_text refused.now) }
{
    let mut text = Vec::new(alloc);
    text.extend_from_slice(b"refused")?;
    put_number(alloc, &mut text, u64::from(refused.number()))?;
    put_word(&mut text, refused.name())?;
    put_values(alloc, &mut text, *refused)?;
    text.push(b'\n')?;
    Ok(text)
}

/// Adds what a refusal tells after its name to the end of a text.
pub(crate) fn put_values(
    alloc: Global,
    text: &mut Vec<u8>,
    refused: Refused,
) -> Result<(), NoMemory>
    ensures { OnOk result (text.new.items ≡ text.old.items ++ values_text refused) }
{
    match refused {
        Refused::DuplicateExec(number)
        | Refused::DuplicateAlloc(number)
        | Refused::DeadAlloc(number)
        | Refused::BustedExec(number)
        | Refused::ExecTaken(number)
        | Refused::NotLive(number)
        | Refused::Needed(number)
        | Refused::Moved(number) => put_number(alloc, text, number),
        Refused::UnknownExec(key) | Refused::RepeatedExec(key) | Refused::Instrument(key) => {
            put_exec(text, &key)
        }
        Refused::Quantity(wanted, found) => put_quantities(alloc, text, wanted, found),
        Refused::UnknownAlloc | Refused::NothingToUndo | Refused::NothingToRedo => Ok(()),
    }
}

/// Adds a tab and a number at the end of a text. An error is out of memory, and what the text has then isn't said.
pub fn put_number(alloc: Global, text: &mut Vec<u8>, number: u64) -> Result<(), NoMemory>
    ensures { OnOk result (text.new.items ≡ text.old.items ++ number_text number) }
{
    let word = format!(in alloc; "\t{number}")?;
    text.extend_from_slice(word.as_bytes())?;
    Ok(())
}

/// Adds a tab and a word at the end of a text. An error is out of memory, and what the text has then isn't said.
pub fn put_word(text: &mut Vec<u8>, word: &[u8]) -> Result<(), NoMemory>
    ensures { OnOk result (text.new.items ≡ text.old.items ++ word_text word.now) }
{
    text.push(b'\t')?;
    text.extend_from_slice(word)?;
    Ok(())
}

/// Adds an execution at the end of a text.
pub(crate) fn put_exec(text: &mut Vec<u8>, key: &ExecKey) -> Result<(), NoMemory>
    ensures { OnOk result (text.new.items ≡ text.old.items ++ exec_text key.now) }
{
    put_word(text, key.peer.bytes())?;
    put_word(text, key.id.bytes())
}

// Adds two quantities at the end of a text.
fn put_quantities(
    alloc: Global,
    text: &mut Vec<u8>,
    wanted: QtySum,
    found: QtySum,
) -> Result<(), NoMemory>
    ensures { OnOk result (text.new.items ≡ text.old.items ++ quantities_text wanted found) }
{
    let words = format!(in alloc; "\t{wanted}\t{found}")?;
    text.extend_from_slice(words.as_bytes())?;
    Ok(())
}

//! The words of a trail's lines.
ghost use Rattle.std.specs.Prelude.{◌≡◌, ◌++◌, ◌∷◌, OnOk, IfOk, map};
ghost use Rattle.blot_tag.specs.Fields.{fields_of};
ghost use Rattle.blot_tag.specs.Views.{text_of};
ghost use Rattle.blot_fields.specs.Numbers.{head_in};
ghost use Rattle.blot_fields.specs.Sender.{sender_of};
ghost use Rattle.blot_console.specs.Replies.{word_text};
ghost use Rattle.blot_trail.specs.TrailText.{IsToldOf, became_text, bytes_text, head_text, id_by, id_tag_of, met_text, sent_text, shown_byte, sum_text, word_or_dash};

use blot_capture::Became;
use blot_console::{Answer, answer_text, put_number, put_word};
use blot_fields::{FieldFault, Message, first_text, head_in, sender_of};
use blot_session::Met;
use blot_tag::Frame;
use blot_types::Text64;
use std::alloc::{AllocError as NoMemory, Global};

/// Adds a word's name and its count at the end of a text, as a line.
#[tactic(auto, unfolding(crate::specs::TrailText::sum_text))]
pub(crate) fn put_sum(
    alloc: Global,
    text: &mut Vec<u8>,
    name: &[u8],
    count: u64,
) -> Result<(), NoMemory>
    ensures { OnOk result (text.new.items ≡ text.old.items ++ sum_text name.now count) }
{
    text.extend_from_slice(b"sum")?;
    put_word(text, name)?;
    put_number(alloc, text, count)?;
    text.push(b'\n')?;
    Ok(())
}

/// Adds at the end of a text the line of bytes that are no message: where they begin, and how many. None have no line.
#[tactic(auto, unfolding(crate::specs::TrailText::bytes_text))]
pub(crate) fn put_bytes(
    alloc: Global,
    text: &mut Vec<u8>,
    word: &[u8],
    offset: u64,
    count: u64,
) -> Result<(), NoMemory>
    ensures { OnOk result (text.new.items ≡ text.old.items ++ bytes_text word.now offset count) }
{
    if count == 0 {
        return Ok(());
    }
    text.extend_from_slice(word)?;
    put_number(alloc, text, offset)?;
    put_number(alloc, text, count)?;
    text.push(b'\n')?;
    Ok(())
}

/// Adds at the end of a text the line of a message that is sent, with a bar for each SOH.
pub(crate) fn put_sent(text: &mut Vec<u8>, message: &[u8]) -> Result<(), NoMemory>
    ensures { OnOk result (text.new.items ≡ text.old.items ++ sent_text message.now) }
{
    text.extend_from_slice(b"sent\t")?;
    put_shown(text, message)?;
    text.push(b'\n')?;
    Ok(())
}

/// Adds the sender of a frame at the end of a text.
pub(crate) fn put_sender(text: &mut Vec<u8>, frame: &Frame) -> Result<(), NoMemory>
    ensures { OnOk result (text.new.items ≡ text.old.items ++ word_text (word_or_dash (sender_of (fields_of (text_of frame.now))))) }
{
    put_word_or_dash(text, sender_of(frame))
}

/// Adds a message's number, its type and what it is known by at the end of a text.
pub(crate) fn put_head(
    alloc: Global,
    text: &mut Vec<u8>,
    said: &Result<Message, FieldFault>,
    frame: &Frame,
) -> Result<(), NoMemory>
    ensures { OnOk result (text.new.items ≡ text.old.items ++ head_text (head_in said.now) (fields_of (text_of frame.now))) }
{
    let Some(head) = head_in(said) else {
        text.extend_from_slice(b"\t-\t-\t-")?;
        return Ok(());
    };
    put_number(alloc, text, head.number)?;
    put_word(text, head.kind.bytes())?;
    put_word_or_dash(text, id_of(frame, head.kind.bytes()))
}

/// Adds at the end of a text what became of a message, to the end of its line.
pub(crate) fn put_became(alloc: Global, text: &mut Vec<u8>, became: &Became) -> Result<(), NoMemory>
    requires { IsToldOf became.now }
    ensures { OnOk result (text.new.items ≡ text.old.items ++ became_text became.now) }
{
    match became {
        Became::Passed => {
            text.extend_from_slice(b"passed\n")?;
            Ok(())
        }
        Became::Met(met) => put_met(alloc, text, *met),
        Became::Replied(reply) => {
            let told = answer_text(alloc, &Answer::Replied(*reply))?;
            text.extend_from_slice(&told)?;
            Ok(())
        }
    }
}

// Adds at the end of a text what a session made of a message, to the end of its line.
fn put_met(alloc: Global, text: &mut Vec<u8>, met: Met) -> Result<(), NoMemory>
    ensures { OnOk result (text.new.items ≡ text.old.items ++ met_text met) }
{
    match met {
        Met::Closed(reason) => {
            text.extend_from_slice(b"closed")?;
            put_number(alloc, text, u64::from(reason.number()))?;
            put_word(text, reason.name())?;
        }
        Met::Delivered | Met::Taken => text.extend_from_slice(b"taken")?,
        Met::Rejected { tag, reason } => {
            text.extend_from_slice(b"rejected")?;
            put_number(alloc, text, u64::from(tag))?;
            put_number(alloc, text, u64::from(reason))?;
        }
        Met::Unsupported => text.extend_from_slice(b"unsupported")?,
        Met::Early(expected) => {
            text.extend_from_slice(b"early")?;
            put_number(alloc, text, expected)?;
        }
        Met::Late(expected) => {
            text.extend_from_slice(b"late")?;
            put_number(alloc, text, expected)?;
        }
    }
    text.push(b'\n')?;
    Ok(())
}

// Adds a tab and a word at the end of a text, `-` where there is none.
fn put_word_or_dash(text: &mut Vec<u8>, word: Option<Text64>) -> Result<(), NoMemory>
    ensures { OnOk result (text.new.items ≡ text.old.items ++ word_text (word_or_dash word)) }
{
    match word {
        Some(word) => put_word(text, word.bytes()),
        None => put_word(text, b"-"),
    }
}

// Adds bytes at the end of a text, with a bar for each SOH.
fn put_shown(text: &mut Vec<u8>, bytes: &[u8]) -> Result<(), NoMemory>
    ensures { OnOk result (text.new.items ≡ text.old.items ++ map shown_byte bytes.now) }
{
    for byte in bytes {
        text.push(shown_byte(*byte))?;
    }
    Ok(())
}

// A byte, or a bar for SOH.
fn shown_byte(byte: u8) -> u8
    ensures { result ≡ shown_byte byte }
{
    if byte == 1 { b'|' } else { byte }
}

// What a message of a type is known by.
fn id_of(frame: &Frame, kind: &[u8]) -> Option<Text64>
    ensures { result ≡ id_by (id_tag_of kind.now) (fields_of (text_of frame.now)) }
{
    match id_tag_of(kind) {
        Some(tag) => first_text(frame, tag),
        None => None,
    }
}

// The tag of what a message of a type is known by: ExecID(17) of an Execution Report, AllocID(70) of an Allocation Instruction.
fn id_tag_of(kind: &[u8]) -> Option<u32>
    ensures { result ≡ id_tag_of kind.now }
{
    if kind == b"8".as_slice() {
        return Some(17);
    }
    if kind == b"J".as_slice() {
        return Some(70);
    }
    None
}

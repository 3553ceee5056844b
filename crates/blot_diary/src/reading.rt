//! Reads the frames of a journal.
ghost use Rattle.std.specs.Prelude.{◌≡◌, ℕ, List, IfOk, IfSome, IsErr, IsSomeAnd};
ghost use Rattle.blot_tag.specs.Fields.{fields_of};
ghost use Rattle.blot_tag.specs.Views.{items_of};
ghost use Rattle.blot_fields.specs.Commands.{command_of};
ghost use Rattle.blot_diary.specs.Events.{BringsNoAsk, IsItsSubmit};
ghost use Rattle.blot_diary.specs.Keeping.{IsKept, IsOnAllocation, SaysInRange, TakesMemory, content_of, kept_of};

use crate::kinds::{Kind, kind_of};
use crate::own::{asked_said, beginning_said, numbers_said, wrapped_said};
use crate::{Content, Kept};
use blot_fields::{Body, Message, command_of, command_of_report, decode, is_out_of_memory};
use blot_tag::Frame;
use blot_types::{Command, Text64};
use std::alloc::{AllocError as NoMemory, Global};

/// What a frame of a journal keeps; none of one that is no message without a fault. An error is out of memory: only the lists of an
/// allocation take memory. This project's rule.
#[tactic(auto, using(crate::proofs::AskLemmas::brings_no_ask, crate::proofs::KeptLemmas::its_submit), unfolding(crate::specs::Keeping::kept_of))]
pub fn read_kept(alloc: Global, frame: &Frame) -> Result<Option<Kept>, NoMemory>
    ensures value { IfOk result (λ kept. kept ≡ kept_of (items_of frame.now)) }
    ensures memory { IsErr result → IsSomeAnd (kept_of (items_of frame.now)) (λ kept. TakesMemory kept.content) }

    // A frame that gives a command, as its own sender's, is the submit of it by that sender.
    ensures submit { (text : List ℕ) → IsItsSubmit (fields_of text) }

    // None brings an event that only asks.
    ensures no_ask { (text : List ℕ) → BringsNoAsk (fields_of text) }

    // Each number that it keeps is one that a session can have.
    ensures range { IfOk result (λ kept. IfSome kept IsKept) }
{
    let said = decode(alloc, frame);
    if is_out_of_memory(&said) {
        return Err(NoMemory);
    }
    let Ok(message) = said else {
        return Ok(None);
    };
    let from = message.head.sender.owned();
    let content = content_of(alloc, frame, &message, &from)?;
    Ok(Some(Kept {
        from,
        to: message.head.target.owned(),
        number: message.head.number,
        dup: message.head.dup,
        content,
    }))
}

// What the message of a frame says. An error is out of memory.
fn content_of(
    alloc: Global,
    frame: &Frame,
    message: &Message,
    from: &Text64,
) -> Result<Content, NoMemory>
    ensures value { IfOk result (λ content. content ≡ content_of message.now from.now (items_of frame.now)) }
    ensures memory { IsErr result → TakesMemory (content_of message.now from.now (items_of frame.now)) }
    ensures range { IfOk result SaysInRange }
{
    if let Some(command) = command_in(alloc, message, from)? {
        return Ok(Content::Command(command));
    }
    match kind_of(message.head.kind.bytes()) {
        Kind::Beginning => Ok(beginning_said(frame)),
        Kind::Wrapped => Ok(wrapped_said(frame)),
        Kind::Numbers => Ok(numbers_said(frame)),
        Kind::Asked => asked_said(alloc, frame),
        Kind::Message => Ok(Content::Message),
    }
}

// The command that a peer's message gives the book. An error is out of memory, and comes only of an allocation.
fn command_in(alloc: Global, message: &Message, peer: &Text64) -> Result<Option<Command>, NoMemory>
    ensures value { IfOk result (λ command. command ≡ command_of message.now peer.now) }
    ensures memory { IsErr result → IsSomeAnd (command_of message.now peer.now) IsOnAllocation }
{
    match &message.body {
        Body::Report(report) => Ok(command_of_report(report, message.head.sending, peer)),
        Body::Allocation(_) => command_of(alloc, message, peer),
        _ => Ok(None),
    }
}

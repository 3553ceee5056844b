//! What a journal's own frames say.
ghost use Rattle.std.specs.Prelude.{◌≡◌, ◌≤◌, ◌+◌, IfOk, IfSome, IsErr, IsSomeAnd};
ghost use Rattle.blot_tag.specs.Views.{items_of};
ghost use Rattle.blot_fields.specs.declared.TheConstants.{SEQUENCE_MAX};
ghost use Rattle.blot_console.specs.Asks.{SubmitsAllocNew};
ghost use Rattle.blot_diary.specs.Keeping.{SaysInRange, TakesMemory};
ghost use Rattle.blot_diary.specs.Own.{asked_said, beginning_said, event_of_line, next_form, number_in, numbers_said, wrapped_said};

use crate::{Content, SequenceNumbers};
use blot_console::{Ask, LineFault, parse_line};
use blot_desk::Event;
use blot_fields::{SEQUENCE_MAX, first_text, first_value};
use blot_tag::{Frame, is_number, number_of};
use blot_time::Day;
use std::alloc::{AllocError as NoMemory, Global};

/// The day that a `35=UD` names: TradeDate(75).
pub(crate) fn beginning_said(frame: &Frame) -> Content
    ensures value { result ≡ beginning_said (items_of frame.now) }
    ensures range { SaysInRange result }
{
    match first_value(frame, 75) {
        Some(value) => match Day::read(value) {
            Ok(day) => Content::Beginning(day),
            Err(_) => Content::Unclear,
        },
        None => Content::Unclear,
    }
}

/// That a `35=UR` has a message within it: RawData(96).
pub(crate) fn wrapped_said(frame: &Frame) -> Content
    ensures value { result ≡ wrapped_said (items_of frame.now) }
    ensures range { SaysInRange result }
{
    match first_value(frame, 96) {
        Some(_) => Content::Wrapped,
        None => Content::Unclear,
    }
}

/// The numbers that a `35=UN` names: NextExpectedMsgSeqNum(789) and NewSeqNo(36).
pub(crate) fn numbers_said(frame: &Frame) -> Content
    ensures value { result ≡ numbers_said (items_of frame.now) }
    ensures range { SaysInRange result }
{
    match (number_in(frame, 789), number_in(frame, 36)) {
        (Some(expected), Some(next)) => Content::Numbers(SequenceNumbers { expected, next }),
        _ => Content::Unclear,
    }
}

// The number in the first field of a tag, if it can be a session's.
fn number_in(frame: &Frame, tag: u32) -> Option<u64>
    ensures value { result ≡ number_in tag (items_of frame.now) }
    ensures range { IfSome result (λ number. (1 ≤ number) × (number ≤ SEQUENCE_MAX + 1)) }
{
    match first_value(frame, tag) {
        Some(value) => next_form(value),
        None => None,
    }
}

// A number from 1 to one more than the largest of a message.
#[tactic(auto, unfolding(crate::specs::Own::next_form))]
fn next_form(value: &[u8]) -> Option<u64>
    ensures value { result ≡ next_form value.now }
    ensures range { IfSome result (λ number. (1 ≤ number) × (number ≤ SEQUENCE_MAX + 1)) }
{
    if !is_number(value) {
        return None;
    }
    let number = number_of(value) as u64;
    if 1 <= number && number <= SEQUENCE_MAX + 1 {
        Some(number)
    } else {
        None
    }
}

/// The operator's event that a `35=UL` has: the line is Text(58), and the operator SenderSubID(50). An error is out of memory.
pub(crate) fn asked_said(alloc: Global, frame: &Frame) -> Result<Content, NoMemory>
    ensures value { IfOk result (λ content. content ≡ asked_said (items_of frame.now)) }
    ensures memory { IsErr result → TakesMemory (asked_said (items_of frame.now)) }
    ensures range { IfOk result SaysInRange }
{
    let Some(operator) = first_text(frame, 50) else {
        return Ok(Content::Unclear);
    };
    let Some(line) = first_value(frame, 58) else {
        return Ok(Content::Unclear);
    };
    match event_of_line(alloc, line)? {
        Some(event) => Ok(Content::Asked { operator, event }),
        None => Ok(Content::Unclear),
    }
}

/// The event that a line asks for, unless it only asks. An error is out of memory.
pub(crate) fn event_of_line(alloc: Global, line: &[u8]) -> Result<Option<Event>, NoMemory>
    ensures value { IfOk result (λ event. event ≡ event_of_line line.now) }
    ensures memory { IsErr result → IsSomeAnd (event_of_line line.now) SubmitsAllocNew }
{
    match parse_line(alloc, line) {
        Ok(Ask::Step(event)) => Ok(if event.is_ask() { None } else { Some(event) }),
        Err(LineFault::NoMemory) => Err(NoMemory),
        _ => Ok(None),
    }
}

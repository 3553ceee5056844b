//! The frames that a journal writes of its own.
ghost use Rattle.std.specs.Prelude.{◌≡◌, ◌≤◌, List, Some, None, codes, option_map, IfOk, IfSome, is_some};
ghost use Rattle.blot_tag.specs.Fields.{fields_of};
ghost use Rattle.blot_tag.specs.Frames.{IsFrame};
ghost use Rattle.blot_tag.specs.Views.{text_of};
ghost use Rattle.blot_tag.specs.Writing.{frame_of};
ghost use Rattle.blot_fields.specs.declared.TheConstants.{SEQUENCE_MAX};
ghost use Rattle.blot_desk.specs.declared.event.Event.{Event};
ghost use Rattle.blot_diary.specs.declared.kept.Content.TheVariants.{Asked, Beginning, Numbers as TwoNumbers, Wrapped};
ghost use Rattle.blot_diary.specs.Keeping.{IsInRange, kept_of};
ghost use Rattle.blot_diary.specs.Own.{event_of_line};
ghost use Rattle.blot_diary.specs.Records.{asked_message, beginning_message, keeps, numbers_message, wrapped_message};
ghost use Rattle.blot_diary.specs.Writing.{fits, written};

use crate::SequenceNumbers;
use crate::writing::write;
use blot_tag::Frame;
use blot_time::{Day, Moment};
use blot_types::Text64;
use itoa::Buffer;
use std::alloc::{AllocError as NoMemory, Global};

/// The beginning of a journal of this day, `35=UD`. This project's rule.
pub fn beginning_record(
    alloc: Global,
    own: &Text64,
    day: Day,
    now: Moment,
) -> Result<Vec<u8>, NoMemory>
    ensures text { IfOk result (λ text. text.items ≡ frame_of (beginning_message own.now day now)) }

    // Read again, it keeps the day.
    ensures valid { IfOk result (λ text. IsFrame text.items) }
    ensures kept { IfOk result (λ text. kept_of (fields_of text.items) ≡ Some (keeps own.now own.now 1 (Beginning day))) }
{
    let (sent, said) = (now.write(), day.write());
    let made = write(
        alloc,
        b"UD",
        &[
            (49, own.bytes()),
            (56, own.bytes()),
            (34, b"1"),
            (52, &sent),
            (75, &said),
        ],
    )?;
    Ok(made.unwrap())
}

/// The two numbers of a peer's session, `35=UN`. This project's rule.
pub fn numbers_record<'a>(
    alloc: Global,
    own: &'a Text64,
    peer: &'a Text64,
    number: u64,
    now: Moment,
    numbers: SequenceNumbers,
) -> Result<Vec<u8>, NoMemory>
    requires low { 1 ≤ number }
    requires high { number ≤ SEQUENCE_MAX }
    requires numbers { IsInRange numbers }
    ensures text { IfOk result (λ text. text.items ≡ frame_of (numbers_message own.now peer.now number now numbers)) }

    // Read again, it keeps the numbers.
    ensures valid { IfOk result (λ text. IsFrame text.items) }
    ensures kept { IfOk result (λ text. kept_of (fields_of text.items) ≡ Some (keeps own.now peer.now number (TwoNumbers numbers))) }
{
    let sent = now.write();
    let mut digits = Buffer::new();
    let (mut expected, mut next) = (Buffer::new(), Buffer::new());
    let made = write(
        alloc,
        b"UN",
        &[
            (49, own.bytes()),
            (56, peer.bytes()),
            (34, digits.format(number).as_bytes()),
            (52, &sent),
            (789, expected.format(numbers.expected).as_bytes()),
            (36, next.format(numbers.next).as_bytes()),
        ],
    )?;
    Ok(made.unwrap())
}

/// What an operator asked by a line, `35=UL`. None where the line is too long, or an SOH stands in it. This project's rule.
pub fn asked_record<'a>(
    alloc: Global,
    own: &'a Text64,
    operator: &'a Text64,
    number: u64,
    now: Moment,
    line: &'a [u8],
) -> Result<Option<Vec<u8>>, NoMemory>
    requires low { 1 ≤ number }
    requires high { number ≤ SEQUENCE_MAX }
    ensures made { IfOk result (λ made. is_some made ≡ fits (asked_message own.now operator.now number now line.now)) }
    ensures text { IfOk result (λ made. IfSome made (λ text. text.items ≡ frame_of (asked_message own.now operator.now number now line.now))) }

    // Read again, it keeps the event that the line asks for.
    ensures valid { IfOk result (λ made. IfSome made (λ text. IsFrame text.items)) }
    ensures kept { IfOk result (λ made. IfSome made (λ text. (event : Event) → event_of_line line.now ≡ Some event
        → kept_of (fields_of text.items) ≡ Some (keeps own.now own.now number (Asked operator.now event)))) }
{
    let sent = now.write();
    let mut digits = Buffer::new();
    write(
        alloc,
        b"UL",
        &[
            (49, own.bytes()),
            (56, own.bytes()),
            (50, operator.bytes()),
            (34, digits.format(number).as_bytes()),
            (52, &sent),
            (58, line),
        ],
    )
}

/// A message that a peer's session didn't take, `35=UR`. None where it doesn't fit. This project's rule.
pub fn wrapped_record<'a>(
    alloc: Global,
    own: &'a Text64,
    peer: &'a Text64,
    number: u64,
    now: Moment,
    frame: &Frame<'a>,
) -> Result<Option<Vec<u8>>, NoMemory>
    requires low { 1 ≤ number }
    requires high { number ≤ SEQUENCE_MAX }
    ensures made { IfOk result (λ made. is_some made ≡ fits (wrapped_message own.now peer.now number now (text_of frame.now))) }
    ensures text { IfOk result (λ made. IfSome made (λ text. text.items ≡ frame_of (wrapped_message own.now peer.now number now (text_of frame.now)))) }

    // Read again, it brings nothing.
    ensures valid { IfOk result (λ made. IfSome made (λ text. IsFrame text.items)) }
    ensures kept { IfOk result (λ made. IfSome made (λ text. kept_of (fields_of text.items) ≡ Some (keeps own.now peer.now number Wrapped))) }
{
    let (text, sent) = (frame.text(), now.write());
    let (mut digits, mut size) = (Buffer::new(), Buffer::new());
    write(
        alloc,
        b"UR",
        &[
            (49, own.bytes()),
            (56, peer.bytes()),
            (34, digits.format(number).as_bytes()),
            (52, &sent),
            (95, size.format(text.len()).as_bytes()),
            (96, text),
        ],
    )
}

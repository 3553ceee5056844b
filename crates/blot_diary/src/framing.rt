//! A diary keeps frames.
ghost use Rattle.std.specs.Prelude.{◌≡◌, ◌≤◌, true, IfOk, IfSome};
ghost use Rattle.blot_fields.specs.declared.TheConstants.{SEQUENCE_MAX};
ghost use Rattle.blot_diary.specs.Keeping.{IsInRange};
ghost use Rattle.blot_diary.specs.Laws.{counts_frames, spells_frames};
ghost use Rattle.blot_diary.specs.Numbering.{pair_behind};

use crate::own::event_of_line;
use crate::{Diary, SequenceNumbers, asked_record, is_plain, numbers_record, wrapped_record};
use blot_desk::Event;
use blot_fields::SEQUENCE_MAX;
use blot_gateway::{FrameKeeper, RecordHead};
use blot_journal::Device;
use blot_tag::Frame;
use std::alloc::{AllocError as NoMemory, Global};

impl<D: Device + Drop> FrameKeeper for Diary<D> {
    ghost numbers_after = { pair_behind };

    ghost spells_frames = { λ text command valid brings. spells_frames text command valid brings };

    ghost counts_frames = { λ kept. counts_frames };

    fn is_kept() -> bool {
        true
    }

    fn keeps_plain(alloc: Global, text: &[u8]) -> Result<bool, NoMemory> {
        is_plain(alloc, text)
    }

    fn wrapped_record(
        alloc: Global,
        head: &RecordHead,
        frame: &Frame,
    ) -> Result<Option<Vec<u8>>, NoMemory> {
        if !is_number(head.number) {
            return Ok(None);
        }
        wrapped_record(alloc, &head.own, &head.party, head.number, head.now, frame)
    }

    fn numbers_record(
        alloc: Global,
        head: &RecordHead,
        expected: u64,
        next: u64,
    ) -> Result<Option<Vec<u8>>, NoMemory> {
        let numbers = SequenceNumbers { expected, next };
        if !is_number(head.number) || !are_in_range(numbers) {
            return Ok(None);
        }
        match numbers_record(
            alloc,
            &head.own,
            &head.party,
            head.number,
            head.now,
            numbers,
        ) {
            Ok(text) => Ok(Some(text)),
            Err(_) => Err(NoMemory),
        }
    }

    fn line_record(
        alloc: Global,
        head: &RecordHead,
        line: &[u8],
        event: &Event,
    ) -> Result<Option<Vec<u8>>, NoMemory> {
        let Some(asked) = event_of_line(alloc, line)? else {
            return Ok(None);
        };
        if !are_same(&asked, event) || !is_number(head.number) {
            return Ok(None);
        }
        asked_record(alloc, &head.own, &head.party, head.number, head.now, line)
    }
}

// Whether two events are the same.
fn are_same(asked: &Event, event: &Event) -> bool
    ensures { result ≡ true → asked.now ≡ event.now }
{
    asked == event
}

// Whether a message can have this number.
fn is_number(number: u64) -> bool
    ensures { result ≡ true → (1 ≤ number) × (number ≤ SEQUENCE_MAX) }
{
    1 <= number && number <= SEQUENCE_MAX
}

// Whether two numbers can be a session's.
fn are_in_range(numbers: SequenceNumbers) -> bool
    ensures { result ≡ true → IsInRange numbers }
{
    1 <= numbers.expected
        && numbers.expected <= SEQUENCE_MAX + 1
        && 1 <= numbers.next
        && numbers.next <= SEQUENCE_MAX + 1
}

//! What keeps the events of a desk as FIX frames.
ghost use Rattle.std.specs.Prelude.{◌≡◌, ◌+◌, false, true, List, ℕ, Ok, Some, IfNone, IfOk, IfSome};
ghost use Rattle.blot_types.specs.declared.command.Command.{Command};
ghost use Rattle.blot_types.specs.Keys.{same_text};
ghost use Rattle.blot_desk.specs.declared.event.Event.TheVariants.{Submit};
ghost use Rattle.blot_desk.specs.Keeping.{IsSpelled};
ghost use Rattle.blot_tag.specs.Frames.{IsFrame};
ghost use Rattle.blot_tag.specs.Fields.{fields_of};
ghost use Rattle.blot_fields.specs.Bringing.{brought};
ghost use Rattle.blot_fields.specs.Commands.{command_of};
ghost use Rattle.blot_fields.specs.Decoding.{decoded};
ghost use Rattle.blot_fields.specs.declared.message.Message.{Message};
ghost use Rattle.blot_gateway.specs.Counting.{CountsItself};

use blot_desk::{Event, Keeper, NoKeeper};
use blot_tag::Frame;
use blot_time::Moment;
use blot_types::Text64;
use std::alloc::{AllocError as NoMemory, Global};

/// What a record of one's own begins with.
#[derive(Clone, Copy, Debug)]
pub struct RecordHead {
    /// The blotter's CompID.
    pub own: Text64,
    /// The peer's CompID, or the operator's name.
    pub party: Text64,
    /// How many records of one's own there are of the party, with this one.
    pub number: u64,
    /// When it is made.
    pub now: Moment,
}

/// What keeps the events of a desk as FIX frames: the frame of a command as it came, and frames of its own for an operator's. It keeps frames
/// that spell no event, too. An error is out of memory.
pub trait FrameKeeper: Keeper {
    /// The two numbers of a peer's session after a kept text of one frame, by those before it: the expected one, and that of the next message
    /// to send. The blotter's CompID comes first, then the peer's.
    ghost numbers_after: { List ℕ → List ℕ → List ℕ → ℕ × ℕ → ℕ × ℕ };

    /// Whether it keeps any events.
    fn is_kept() -> bool
        ensures { result ≡ false → Self.IsKept → ⊥ };

    /// Whether a message without a command is kept as it is. It counts by its own number then.
    fn keeps_plain(alloc: Global, text: &[u8]) -> Result<bool, NoMemory>
        ensures { IfOk result (λ kept. kept ≡ true → CountsItself Self.spells_none Self.numbers_after text.now) };

    /// The record of a frame that isn't kept as it is: one that has it inside. None where it doesn't fit.
    fn wrapped_record(
        alloc: Global,
        head: &RecordHead,
        frame: &Frame,
    ) -> Result<Option<Vec<u8>>, NoMemory>
        ensures spelled { IfOk result (λ made. IfSome made (λ text. Self.spells_none text.items)) }

        // It leaves all numbers as they are.
        ensures numbers { IfOk result (λ made. IfSome made (λ text. (peer : List ℕ) (numbers : ℕ × ℕ)
            → Self.numbers_after head.entry.now.own peer text.items numbers ≡ numbers)) };

    /// The record of a session's numbers: the one that it expects, and that of the next message that it sends. None where it can't be made.
    fn numbers_record(
        alloc: Global,
        head: &RecordHead,
        expected: u64,
        next: u64,
    ) -> Result<Option<Vec<u8>>, NoMemory>
        ensures spelled { IfOk result (λ made. IfSome made (λ text. Self.spells_none text.items)) }

        // After it the numbers of the party are these.
        ensures numbers { IfOk result (λ made. IfSome made (λ text. (numbers : ℕ × ℕ)
            → Self.numbers_after head.entry.now.own head.entry.now.party text.items numbers ≡ (expected, next))) };

    /// The record of an operator's event, for which this line asks. None where the line can't be kept.
    fn line_record(
        alloc: Global,
        head: &RecordHead,
        line: &[u8],
        event: &Event,
    ) -> Result<Option<Vec<u8>>, NoMemory>
        ensures spelled { IfOk result (λ made. IfSome made (λ text. IsSpelled Self.spells text.items event.now)) }

        // What keeps no events has a record of each line.
        ensures unkept { IfOk result (λ made. IfNone made Self.IsKept) };

    /// A frame that brings a command spells its submit.
    ghost spells_frames: { (text : List ℕ) (command : Command) → IsFrame text → brought text ≡ Some command → Self.spells text (Submit command) };

    /// It makes the number after its own the expected one of its sender's session.
    ghost counts_frames: { Self.IsKept → (own text : List ℕ) (message : Message) (command : Command) (numbers : ℕ × ℕ) → decoded (fields_of text) ≡ Ok message
        → command_of message message.head.sender ≡ Some command → same_text message.head.sender own ≡ false
        → Self.numbers_after own message.head.sender text numbers ≡ (message.head.number + 1, numbers.1) };
}

impl FrameKeeper for NoKeeper {
    ghost numbers_after = { λ own peer text numbers. numbers };

    ghost spells_frames = { λ text command valid brings. tt };

    ghost counts_frames = { λ kept. absurd kept };

    fn is_kept() -> bool {
        false
    }

    fn keeps_plain(_alloc: Global, _text: &[u8]) -> Result<bool, NoMemory> {
        Ok(false)
    }

    fn wrapped_record(
        _alloc: Global,
        _head: &RecordHead,
        _frame: &Frame,
    ) -> Result<Option<Vec<u8>>, NoMemory> {
        Ok(None)
    }

    fn numbers_record(
        _alloc: Global,
        _head: &RecordHead,
        _expected: u64,
        _next: u64,
    ) -> Result<Option<Vec<u8>>, NoMemory> {
        Ok(None)
    }

    fn line_record(
        alloc: Global,
        _head: &RecordHead,
        _line: &[u8],
        _event: &Event,
    ) -> Result<Option<Vec<u8>>, NoMemory> {
        Ok(Some(Vec::new(alloc)))
    }
}

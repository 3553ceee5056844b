//! Why a frame is no message.

use crate::Head;
use blot_tag::{SplitFault, SplitReason};
use std::alloc::AllocError as NoMemory;
use std::error::Error;
use std::fmt;

/// Why a message is refused. FIX 4.4 volume 2, SessionRejectReason(373); `NoMemory` is this project's rule.
#[derive(Clone, Copy, Debug, PartialEq, Eq)]
pub enum FieldReason {
    /// A field has no valid tag.
    InvalidTagNumber = 0,
    /// A field that the message needs isn't there.
    RequiredTagMissing = 1,
    /// A field is empty.
    TagWithoutValue = 4,
    /// A value has the right form and is out of range.
    ValueIncorrect = 5,
    /// A value has the wrong form, or the field is the 2,001st of its message.
    IncorrectDataFormat = 6,
    /// A field that may stand once stands again.
    TagRepeated = 13,
    /// A group doesn't have as many entries as its count says, or has them in the wrong place.
    IncorrectGroupCount = 16,
    /// There was no memory for a message without a fault.
    NoMemory = 100,
}

impl FieldReason {
    ghost use Rattle.std.specs.Prelude.{◌≡◌};
    ghost use Rattle.blot_fields.specs.FaultText.{reason_number};

    /// The standard's number of it.
    pub fn number(self) -> u8
        ensures { result ≡ reason_number self }
    {
        self as u8
    }
}

/// A message's first fault. FIX 4.4 volume 2, "Reject".
#[derive(Debug, PartialEq, Eq, Drop)]
pub struct FieldFault<'a> {
    /// The tag of the field at fault; 0 where it has none, and at `NoMemory`.
    pub tag: u32,
    pub reason: FieldReason,
    /// The header; none where it is at fault, or can't be read before the field at fault.
    pub head: Option<Head<'a>>,
}

impl<'a> fmt::Display for FieldFault<'a> {
    ghost use Rattle.std.specs.Prelude.{Some};
    ghost use Rattle.blot_fields.specs.FaultText.{fault_text};

    ghost output = { λ fault. Some (fault_text fault) };

    fn fmt<W: fmt::Write>(&self, f: &mut fmt::Formatter<W>) -> fmt::Result {
        let tag = self.tag;
        let reason = self.reason.number();
        write!(f, "field {tag} is refused for reason {reason}")
    }
}

impl<'a> Error for FieldFault<'a> {}

/// What is wrong with a field.
#[derive(Clone, Copy, Debug, PartialEq, Eq)]
pub(crate) enum Flaw {
    InvalidTagNumber,
    RequiredTagMissing,
    TagWithoutValue,
    ValueIncorrect,
    IncorrectDataFormat,
    TagRepeated,
    IncorrectGroupCount,
}

impl Flaw {
    ghost use Rattle.std.specs.Prelude.{◌≡◌};
    ghost use Rattle.blot_fields.specs.Faults.{reason_of};

    // The reason that the standard gives it.
    fn reason(self) -> FieldReason
        ensures { result ≡ reason_of self }
    {
        match self {
            Flaw::InvalidTagNumber => FieldReason::InvalidTagNumber,
            Flaw::RequiredTagMissing => FieldReason::RequiredTagMissing,
            Flaw::TagWithoutValue => FieldReason::TagWithoutValue,
            Flaw::ValueIncorrect => FieldReason::ValueIncorrect,
            Flaw::IncorrectDataFormat => FieldReason::IncorrectDataFormat,
            Flaw::TagRepeated => FieldReason::TagRepeated,
            Flaw::IncorrectGroupCount => FieldReason::IncorrectGroupCount,
        }
    }
}

/// A field's fault, before it is known whether the header can be read.
#[derive(Clone, Copy, Debug, PartialEq, Eq)]
pub(crate) struct Wrong {
    pub(crate) tag: u32,
    pub(crate) flaw: Flaw,
}

impl Wrong {
    ghost use Rattle.std.specs.Prelude.{◌≡◌};
    ghost use Rattle.blot_fields.specs.Rows.{wrong};
    ghost use Rattle.blot_fields.specs.Walk.{split_wrong};
    ghost use Rattle.blot_fields.specs.Faults.{fault_under};

    /// A flaw of the field with a tag.
    pub(crate) fn new(tag: u32, flaw: Flaw) -> Wrong
        ensures { result ≡ wrong tag flaw }
    {
        Wrong { tag, flaw }
    }

    /// The fault of a field that can't be split off.
    pub(crate) fn split(fault: SplitFault) -> Wrong
        ensures { result ≡ split_wrong fault }
    {
        let flaw = match fault.reason {
            SplitReason::InvalidTagNumber => Flaw::InvalidTagNumber,
            SplitReason::IncorrectDataFormat => Flaw::IncorrectDataFormat,
        };
        Wrong {
            tag: fault.tag,
            flaw,
        }
    }

    /// The fault under the header, where that can be read.
    pub(crate) fn under<'a>(self, head: Option<Head<'a>>) -> FieldFault<'a>
        ensures { result ≡ fault_under head.entry self }
    {
        FieldFault {
            tag: self.tag,
            reason: self.flaw.reason(),
            head,
        }
    }
}

impl<'a> FieldFault<'a> {
    ghost use Rattle.std.specs.Prelude.{◌≡◌};
    ghost use Rattle.blot_fields.specs.Faults.{no_memory_under};

    /// Out of memory for a message with this header.
    pub(crate) fn no_memory(head: Head<'a>) -> FieldFault<'a>
        ensures { result ≡ no_memory_under head.entry }
    {
        FieldFault {
            tag: 0,
            reason: FieldReason::NoMemory,
            head: Some(head),
        }
    }
}

/// Why the fields of a message aren't given.
#[derive(Clone, Copy, Debug)]
pub(crate) enum Refusal {
    Wrong(Wrong),
    NoMemory,
}

impl From<Wrong> for Refusal {
    ghost use Rattle.std.specs.Prelude.{◌≡◌};
    ghost use Rattle.blot_fields.specs.declared.fault.Refusal.TheVariants as refusals;

    ghost from_gives = { λ wrong refusal. refusal ≡ refusals.Wrong wrong };

    fn from(wrong: Wrong) -> Refusal {
        Refusal::Wrong(wrong)
    }
}

impl From<NoMemory> for Refusal {
    ghost use Rattle.std.specs.Prelude.{◌≡◌};
    ghost use Rattle.blot_fields.specs.declared.fault.Refusal.TheVariants as refusals;

    ghost from_gives = { λ _ refusal. refusal ≡ refusals.NoMemory };

    fn from(_: NoMemory) -> Refusal {
        Refusal::NoMemory
    }
}

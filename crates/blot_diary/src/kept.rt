//! What a frame of a journal keeps.
ghost use Rattle.std.specs.Prelude.{◌≡◌, List, ℕ, Some};
ghost use Rattle.blot_tag.specs.Fields.{fields_of};
ghost use Rattle.blot_diary.specs.Beginnings.{begun_by};
ghost use Rattle.blot_diary.specs.Events.{BringsLast, noted_of};
ghost use Rattle.blot_diary.specs.Keeping.{kept_of};

use crate::SequenceNumbers;
use blot_desk::Event;
use blot_time::Day;
use blot_types::{Command, Text64};

/// Who brings an event.
#[derive(Clone, Copy, Debug, PartialEq, Eq)]
pub enum Party {
    /// The broker of this CompID.
    Peer(Text64),
    /// The operator of this name.
    Operator(Text64),
}

/// An event, with who brought it.
#[derive(Debug, PartialEq, Eq, Drop)]
pub struct Noted {
    pub party: Party,
    pub event: Event,
}

/// Whose journal begins, and of which day.
#[derive(Clone, Copy, Debug, PartialEq, Eq)]
pub struct Beginning {
    /// The blotter's CompID.
    pub own: Text64,
    pub day: Day,
}

/// What a frame of a journal says. This project's rule.
#[derive(Debug, PartialEq, Eq, Drop)]
pub enum Content {
    /// The command of a peer's message.
    Command(Command),
    /// The day of the journal that begins: `35=UD`.
    Beginning(Day),
    /// An operator's event: `35=UL`.
    Asked { operator: Text64, event: Event },
    /// The numbers of a peer's session: `35=UN`.
    Numbers(SequenceNumbers),
    /// A message that a peer's session didn't take: `35=UR`. It brings nothing.
    Wrapped,
    /// A frame of one of these four types that doesn't say what it has to.
    Unclear,
    /// A message without a command.
    Message,
}

/// What a frame of a journal keeps: its header, as far as it matters, and what it says.
#[derive(Debug, PartialEq, Eq, Drop)]
pub struct Kept {
    /// SenderCompID(49).
    pub from: Text64,
    /// TargetCompID(56).
    pub to: Text64,
    /// MsgSeqNum(34).
    pub number: u64,
    /// PossDupFlag(43); false where it is missing.
    pub dup: bool,
    pub content: Content,
}

impl Kept {
    /// Whose journal begins with it, and of which day, if it begins one.
    pub fn beginning(&self) -> Option<Beginning>
        ensures { result ≡ begun_by self.now }
    {
        match &self.content {
            Content::Beginning(day) => Some(Beginning {
                own: self.from,
                day: *day,
            }),
            _ => None,
        }
    }

    /// The event that it brings, if it brings one.
    #[tactic(auto, using(crate::proofs::FoldLemmas::brings_last))]
    pub fn into_noted(self) -> Option<Noted>
        ensures value { result ≡ noted_of self }

        // Behind some frames, a frame that keeps this adds that event to theirs, and nothing else.
        ensures last { (frames : List (List ℕ)) (frame : List ℕ) → kept_of (fields_of frame) ≡ Some self → BringsLast frames frame (noted_of self) }
    {
        let Kept { from, content, .. } = self;
        match content {
            Content::Command(command) => Some(Noted {
                party: Party::Peer(from),
                event: Event::Submit(command),
            }),
            Content::Asked { operator, event } => Some(Noted {
                party: Party::Operator(operator),
                event,
            }),
            Content::Beginning(_)
            | Content::Numbers(_)
            | Content::Wrapped
            | Content::Unclear
            | Content::Message => None,
        }
    }
}

//! The numbers of a peer's session.
ghost use Rattle.std.specs.Prelude.{◌≡◌, ◌≤◌, List, [], ◌∷◌, ◌++◌, ℕ, Some};
ghost use Rattle.blot_tag.specs.Fields.{fields_of};
ghost use Rattle.blot_fields.specs.declared.TheConstants.{SEQUENCE_MAX};
ghost use Rattle.blot_diary.specs.Keeping.{IsInRange, IsKept, kept_of};
ghost use Rattle.blot_diary.specs.Numbering.{expected_after, first_numbers, next_after, is_sent, numbers_after, numbers_in};

use crate::{Content, Kept};
use blot_types::Text64;

/// The two numbers of a peer's session, each from 1 to one more than the largest number of a message.
#[derive(Clone, Copy, Debug, PartialEq, Eq)]
pub struct SequenceNumbers {
    /// The number that the peer's next message is expected to have.
    pub expected: u64,
    /// The number of the next message to the peer.
    pub next: u64,
}

impl SequenceNumbers {
    /// Those of a peer that was never heard of: 1 and 1.
    pub fn first() -> SequenceNumbers
        ensures value { result ≡ first_numbers }
        ensures none { (own peer : List ℕ) → numbers_in own peer [] ≡ result }
        ensures range { IsInRange result }
    {
        SequenceNumbers {
            expected: 1,
            next: 1,
        }
    }

    /// The numbers of a peer after a frame that keeps this.
    #[tactic(auto, using(crate::proofs::FoldLemmas::numbers_last))]
    pub fn after(self, own: &Text64, peer: &Text64, kept: &Kept) -> SequenceNumbers
        requires { kept.now.number ≤ SEQUENCE_MAX }
        ensures value { result ≡ numbers_after own.now peer.now self kept.now }

        // Behind some frames, a frame that keeps this takes the peer's numbers to these.
        ensures last { (frames : List (List ℕ)) (frame : List ℕ) → kept_of (fields_of frame) ≡ Some kept.now → numbers_in own.now peer.now frames ≡ self
            → numbers_in own.now peer.now (frames ++ frame ∷ []) ≡ numbers_after own.now peer.now self kept.now }
        ensures range { IsInRange self → IsKept kept.now → IsInRange result }
    {
        SequenceNumbers {
            expected: expected_after(peer, self.expected, kept),
            next: next_after(own, peer, self.next, kept),
        }
    }
}

// The number that is expected of a peer after a frame.
fn expected_after(peer: &Text64, expected: u64, kept: &Kept) -> u64
    requires { kept.now.number ≤ SEQUENCE_MAX }
    ensures { result ≡ expected_after peer.now expected kept.now }
{
    match &kept.content {
        Content::Numbers(numbers) if kept.to == *peer => numbers.expected,
        Content::Command(_) if kept.from == *peer => kept.number + 1,
        _ => expected,
    }
}

// The number of the next message to a peer after a frame.
fn next_after(own: &Text64, peer: &Text64, next: u64, kept: &Kept) -> u64
    requires { kept.now.number ≤ SEQUENCE_MAX }
    ensures { result ≡ next_after own.now peer.now next kept.now }
{
    match &kept.content {
        Content::Numbers(numbers) if kept.to == *peer => numbers.next,
        Content::Command(_) | Content::Message if is_sent(own, peer, kept) => kept.number + 1,
        _ => next,
    }
}

// Whether a frame is the blotter's to a peer, sent for the first time.
fn is_sent(own: &Text64, peer: &Text64, kept: &Kept) -> bool
    ensures { result ≡ is_sent own.now peer.now kept.now }
{
    kept.from == *own && kept.to == *peer && !kept.dup
}

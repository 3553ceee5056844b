//! What a journal received.
ghost use Rattle.std.specs.Prelude.{◌≡◌, ◌++◌, ℕ, ℤ, List, false, true, Err, IfErr, IfOk, None, OnOk, Some};
ghost use Rattle.blot_tag.specs.Joined.{IsWhole};
ghost use Rattle.blot_tag.specs.Views.{text_of};
ghost use Rattle.blot_diary.specs.declared.kept.Beginning.{Beginning};
ghost use Rattle.blot_diary.specs.Beginnings.{begun_by};
ghost use Rattle.blot_recovery.specs.Faults.{BeginsOtherwise, IsWanted};
ghost use Rattle.blot_recovery.specs.Received.{HasReceived, IsJournalOf, IsReceiveFault, RefusesReceiving, received_by, received_of};
ghost use Rattle.blot_recovery.specs.Taking.{begun_on};

use crate::taking::is_wanted;
use crate::walking::{Takes, take_all};
use crate::{Pieces, RecoverFault};
use blot_diary::{Content, Kept, read_kept};
use blot_fields::first_value;
use blot_tag::Frame;
use blot_types::Text64;
use std::alloc::{AllocError as NoMemory, Global};

/// The frames that a journal of this blotter received, one behind the other, as if they were a capture: those that stand in it as they came,
/// and those that a `35=UR` wraps. Another where the text is the journal of another blotter; Damaged where it isn't whole frames, each of them
/// a message without a fault, the first a `35=UD`.
pub fn received<P: Pieces>(
    alloc: Global,
    text: &mut P,
    own: Text64,
) -> Result<Vec<u8>, RecoverFault>
    requires { P.IsReadable text.old }
    ensures received { IfOk result (λ received. received.items ≡ received_of own (P.text text.old)) }
    ensures whole { OnOk result (IsWhole (P.text text.old)) }
    ensures begins { OnOk result (IsJournalOf own (P.text text.old)) }
    ensures fault { IfErr result (IsReceiveFault own (P.text text.old)) }
    ensures same { P.text text.new ≡ P.text text.old }
    ensures readable { P.IsReadable text.new }
{
    let mut receiving = Receiving {
        alloc,
        own,
        begun: false,
        received: Vec::new(alloc),
    };
    match take_all(alloc, text, &mut receiving) {
        Ok(()) => receiving.into_received(),
        Err(fault) => Err(fault),
    }
}

// What a journal received so far.
#[derive(Drop)]
struct Receiving {
    alloc: Global,
    own: Text64,
    // Whether the first frame was taken.
    begun: bool,
    received: Vec<u8>,
}

impl Receiving {
    // What was received, where a first frame was taken.
    fn into_received(self) -> Result<Vec<u8>, RecoverFault>
        ensures received { IfOk result (λ received. received.items ≡ self.received.items) }
        ensures begun { OnOk result (self.begun ≡ true) }
        ensures none { IfErr result (λ fault. (fault ≡ RecoverFault.Damaged 0) × (self.begun ≡ false)) }
    {
        let Receiving {
            begun,
            received,
            ..
        } = self;
        if begun {
            Ok(received)
        } else {
            Err(RecoverFault::Damaged(0))
        }
    }

    // Takes a frame of the blotter's journal.
    fn add(&mut self, frame: &Frame, kept: &Kept) -> Result<(), RecoverFault>
        ensures received { OnOk result (self.new.received.items ≡ self.old.received.items ++ received_by self.old.own (text_of frame.now) (Some kept.now)) }
        ensures own { OnOk result (self.new.own ≡ self.old.own) }
        ensures begun { OnOk result (self.new.begun ≡ true) }
        ensures memory { IfErr result (λ fault. fault ≡ RecoverFault.NoMemory) }
    {
        self.begun = true;
        match add_received(&mut self.received, &self.own, frame, kept) {
            Ok(()) => Ok(()),
            Err(_) => Err(RecoverFault::NoMemory),
        }
    }
}

// That a journal of this blotter begins with a frame.
fn begin(own: &Text64, kept: &Kept, place: usize) -> Result<(), RecoverFault>
    ensures begins { OnOk result ((day : ℤ) × (begun_by kept.now ≡ Some (begun_on own.now day))) }
    ensures other { (found : Beginning) → result ≡ Err (RecoverFault.Another found) → (begun_by kept.now ≡ Some found) × (IsWanted own.now None found → ⊥) }
    ensures damaged { (at : ℕ) → result ≡ Err (RecoverFault.Damaged at) → at ≡ place }
    ensures refused { IfErr result (λ fault. (at : ℕ) → fault ≡ RecoverFault.Damaged at → begun_by kept.now ≡ None) }
    ensures listed { IfErr result (λ fault. (peer : List ℕ) → fault ≡ RecoverFault.Unlisted peer → ⊥) }
{
    let Some(found) = kept.beginning() else {
        return Err(RecoverFault::Damaged(place));
    };
    if is_wanted(own, None, &found) {
        Ok(())
    } else {
        Err(RecoverFault::Another(found))
    }
}

impl Takes for Receiving {
    ghost After = { λ first text now. HasReceived first text now };

    ghost Refuses = { λ now frame fault. RefusesReceiving now frame fault };

    ghost IsOther = { λ first text found. BeginsOtherwise first.own None text found };

    fn take(&mut self, frame: &Frame, place: usize) -> Result<(), RecoverFault> {
        // It is known what the frame is before a text, and behind one.
        let _ = frame.text();
        let Some(kept) = read_kept(self.alloc, frame)? else {
            return Err(RecoverFault::Damaged(place));
        };
        if self.begun {
            return self.add(frame, &kept);
        }
        match begin(&self.own, &kept, place) {
            Ok(()) => self.add(frame, &kept),
            Err(fault) => Err(fault),
        }
    }
}

// Puts what was received by a frame behind what was before.
fn add_received(
    received: &mut Vec<u8>,
    own: &Text64,
    frame: &Frame,
    kept: &Kept,
) -> Result<(), NoMemory>
    ensures { OnOk result (received.new.items ≡ received.old.items ++ received_by own.now (text_of frame.now) (Some kept.now)) }
{
    if kept.from != *own {
        return received.extend_from_slice(frame.text());
    }
    match (&kept.content, first_value(frame, 96)) {
        (Content::Wrapped, Some(value)) => received.extend_from_slice(value),
        _ => Ok(()),
    }
}

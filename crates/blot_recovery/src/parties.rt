//! The parties of a journal, each as a text leaves it.
ghost use Rattle.std.specs.Prelude.{◌≡◌, ◌≤◌, ◌++◌, List, ℕ, [], true, IfErr, OnOk};
ghost use Rattle.blot_fields.specs.declared.TheConstants.{SEQUENCE_MAX};
ghost use Rattle.blot_diary.specs.Events.{noted_of};
ghost use Rattle.blot_diary.specs.Keeping.{IsKept};
ghost use Rattle.blot_recovery.specs.Faults.{IsHere};
ghost use Rattle.blot_recovery.specs.Parties.{IsKeptOperator, IsKeptPeer, events_told, operator_record_after, peer_record_after};
ghost use Rattle.blot_recovery.specs.Refusals.{IsOfDesk};
ghost use Rattle.blot_recovery.specs.Taking.{IsAskedBy, KeepsLast, TakesUp, stands_for, with_event};

use crate::RecoverFault;
use blot_desk::{DeskFault, Opening, Seat};
use blot_diary::{Content, Kept, Noted, SequenceNumbers};
use blot_types::Text64;
use std::sync::ledger::Ledger;

/// A listed peer, as the text of a journal leaves it.
#[derive(Drop)]
pub struct KeptPeer<L: Ledger> {
    pub peer: Text64,
    pub seat: Seat<L>,
    pub numbers: SequenceNumbers,
    /// MsgSeqNum(34) of the last frame of types of the journal's own that is the peer's, `35=UR` and `35=UN`; 0 where there is none.
    pub records: u64,
}

/// An operator, as the text of a journal leaves it.
#[derive(Drop)]
pub struct KeptOperator<L: Ledger> {
    pub name: Text64,
    pub seat: Seat<L>,
    /// MsgSeqNum(34) of the operator's last `35=UL`; 0 where there is none.
    pub records: u64,
}

impl<L: Ledger> KeptPeer<L> {
    /// A peer that was never heard of.
    pub(crate) fn new(peer: Text64, seat: Seat<L>) -> KeptPeer<L>
        requires { seat ≡ [] }
        ensures name { result.peer ≡ peer }
        ensures kept { (own : List ℕ) → IsKeptPeer own [] result }
    {
        KeptPeer {
            peer,
            seat,
            numbers: SequenceNumbers::first(),
            records: 0,
        }
    }

    /// Takes a frame of the peer's, or one to it: its event, if it brings one, goes to the desk by the peer's seat.
    pub(crate) fn take(
        &mut self,
        own: &Text64,
        opening: &mut Opening<L>,
        kept: Kept,
        place: usize,
    ) -> Result<(), RecoverFault>
        requires kept { IsKept kept }
        requires stands { stands_for own.now self.old.peer kept ≡ true }
        ensures opening { OnOk result (TakesUp opening.old opening.new (noted_of kept)) }
        ensures peer { OnOk result ((text more : List ℕ) → KeepsLast text kept more → IsKeptPeer own.now text self.old → IsKeptPeer own.now more self.new) }
        ensures name { self.new.peer ≡ self.old.peer }
        ensures full { IfErr result (IsOfDesk opening.old (noted_of kept)) }
        ensures fault { IfErr result (IsHere place) }
    {
        self.numbers = self.numbers.after(own, &self.peer, &kept);
        self.records = peer_record_after(&self.peer, self.records, &kept);
        take_up(
            opening,
            &mut self.seat,
            &self.peer,
            kept.into_noted(),
            place,
        )
    }
}

impl<L: Ledger> KeptOperator<L> {
    /// An operator that was never heard of.
    pub(crate) fn new(name: Text64, seat: Seat<L>) -> KeptOperator<L>
        ensures { result ≡ record { name = name; seat = seat; records = 0 } }
    {
        KeptOperator {
            name,
            seat,
            records: 0,
        }
    }

    /// Takes a frame that is an event of the operator's: it goes to the desk by the operator's seat.
    pub(crate) fn take(
        &mut self,
        opening: &mut Opening<L>,
        kept: Kept,
        place: usize,
    ) -> Result<(), RecoverFault>
        requires kept { IsKept kept }
        requires asked { IsAskedBy self.old.name kept.content }
        ensures opening { OnOk result (TakesUp opening.old opening.new (noted_of kept)) }
        ensures operator { OnOk result ((text more : List ℕ) → KeepsLast text kept more → IsKeptOperator text self.old → IsKeptOperator more self.new) }
        ensures name { self.new.name ≡ self.old.name }
        ensures full { IfErr result (IsOfDesk opening.old (noted_of kept)) }
        ensures fault { IfErr result (IsHere place) }
    {
        self.records = kept.number;
        take_up(
            opening,
            &mut self.seat,
            &self.name,
            kept.into_noted(),
            place,
        )
    }
}

// The number of a peer's last record of the journal's own types, after a frame.
fn peer_record_after(peer: &Text64, last: u64, kept: &Kept) -> u64
    ensures { result ≡ peer_record_after peer.now last kept.now }
{
    match &kept.content {
        Content::Numbers(_) | Content::Wrapped if kept.to == *peer => kept.number,
        _ => last,
    }
}

// Takes an event of this maker to a desk, if there is one, by a seat.
fn take_up<L: Ledger>(
    opening: &mut Opening<L>,
    seat: &mut Seat<L>,
    maker: &Text64,
    noted: Option<Noted>,
    place: usize,
) -> Result<(), RecoverFault>
    ensures opening { OnOk result (TakesUp opening.old opening.new noted) }
    ensures seat { OnOk result (events_told seat.new ≡ with_event (events_told seat.old) noted) }
    ensures full { IfErr result (IsOfDesk opening.old noted) }
    ensures fault { IfErr result (IsHere place) }
{
    let Some(Noted { event, .. }) = noted else {
        return Ok(());
    };
    match opening.step(seat, maker, event) {
        Ok(_) => Ok(()),
        Err(DeskFault::NoMemory) => Err(RecoverFault::NoMemory),
        Err(DeskFault::Full | DeskFault::Broken | DeskFault::Unsettled) => {
            Err(RecoverFault::Damaged(place))
        }
    }
}

//! The listed peers as a day begins with them.
ghost use Rattle.std.specs.Prelude.{◌≡◌, ◌↔◌, ◌⊎◌, ◌≤◌, ◌+◌, is_some, true, Err, Some, IfOk, IfErr, IsSomeAnd, IsTrue};
ghost use Rattle.std.specs.List.{IsDistinct, list_any};
ghost use Rattle.blot_types.specs.Keys.{same_text};
ghost use Rattle.blot_fields.specs.declared.TheConstants.{SEQUENCE_MAX};
ghost use Rattle.blot_session.specs.States.{resumed};
ghost use Rattle.blot_slots.specs.Slots.{slot_of, with_slot};
ghost use Rattle.blot_lanes.specs.Listing.{all_resumed, peers_of};

use crate::BrokerSeat;
use blot_session::Session;
use blot_slots::{SlotFault, SlotTable};
use blot_types::Text64;
use std::alloc::{AllocError as NoMemory, Global};
use std::marker::Model;
use std::sync::ledger::Ledger;

/// A listed peer as a day begins with it: its seat, and the numbers of its session.
#[derive(Drop)]
pub struct ListedPeer<L: Ledger> {
    seat: BrokerSeat<L>,
    expected: u64,
    next: u64,
}

impl<L: Ledger> Model for ListedPeer<L> {
    ghost use Rattle.std.specs.Prelude.{◌≤◌, ◌+◌};
    ghost use Rattle.blot_fields.specs.declared.TheConstants.{SEQUENCE_MAX};
    ghost use Rattle.blot_lanes.specs.Listing.{Listed};

    ghost Value = { Listed };

    ghost view = { λ listed. record { peer = listed.seat.peer; receipts = listed.seat.receipts; expected = listed.expected; next = listed.next } };

    ghost invariant = { λ listed. ((1 ≤ listed.expected) × (listed.expected ≤ SEQUENCE_MAX + 1)) × ((1 ≤ listed.next) × (listed.next ≤ SEQUENCE_MAX + 1)) };
}

impl<L: Ledger> ListedPeer<L> {
    /// The peer of this seat. Its session expects this number, and sends that one next, 1 to 1,000,000,000 each.
    pub fn new(seat: BrokerSeat<L>, expected: u64, next: u64) -> ListedPeer<L>
        requires expected { (1 ≤ expected) × (expected ≤ SEQUENCE_MAX + 1) }
        requires next { (1 ≤ next) × (next ≤ SEQUENCE_MAX + 1) }
        ensures { result ≡ record { peer = seat.peer; receipts = seat.receipts; expected = expected; next = next } }
    {
        ListedPeer {
            seat,
            expected,
            next,
        }
    }

    // Who it is.
    fn peer(&self) -> &Text64
        ensures { result.now ≡ self.now.peer }
    {
        self.seat.peer()
    }

    /// The seat, and the number that the session expects.
    pub(crate) fn into_seat(self) -> (BrokerSeat<L>, u64)
        ensures seat { result.0 ≡ record { peer = self.peer; receipts = self.receipts } }
        ensures expected { result.1 ≡ self.expected }
    {
        let ListedPeer { seat, expected, .. } = self;
        (seat, expected)
    }

    // The session of the peer with this blotter.
    fn session(&self, own: Text64) -> Session
        ensures { result ≡ resumed own self.now.peer self.now.expected self.now.next }
    {
        Session::resume(own, *self.peer(), self.expected, self.next)
    }
}

/// The sessions of listed peers: each waits for its Logon, with its numbers. RepeatedPeer where two of the peers are the same, before any
/// memory is asked for.
pub(crate) fn resumed_sessions<L: Ledger>(
    alloc: Global,
    own: Text64,
    listed: &[ListedPeer<L>],
) -> Result<SlotTable, SlotFault>
    ensures ok { IfOk result (λ table. table ≡ all_resumed own listed.now) }
    ensures repeated { (result ≡ Err SlotFault.RepeatedPeer) ↔ (IsDistinct same_text (peers_of listed.now) → ⊥) }
    ensures err { IfErr result (λ fault. (fault ≡ SlotFault.RepeatedPeer) ⊎ (fault ≡ SlotFault.NoMemory)) }
{
    if !are_distinct(listed) {
        return Err(SlotFault::RepeatedPeer);
    }
    let names = names_of(alloc, listed)?;
    let mut sessions = SlotTable::new(alloc, own, &names)?;
    for it in listed {
        resume(&mut sessions, own, it);
    }
    Ok(sessions)
}

// Gives the session of a listed peer the numbers that the day begins with.
fn resume<L: Ledger>(sessions: &mut SlotTable, own: Text64, listed: &ListedPeer<L>)
    ensures { IsSomeAnd (slot_of sessions.old listed.now.peer) (λ slot. is_some slot ≡ true)
        → sessions.new ≡ with_slot listed.now.peer (Some (resumed own listed.now.peer listed.now.expected listed.now.next)) sessions.old }
{
    if sessions.check_out(listed.peer()).is_ok() {
        sessions.take_back(listed.session(own));
    }
}

// Who they are.
fn names_of<L: Ledger>(alloc: Global, listed: &[ListedPeer<L>]) -> Result<Vec<Text64>, NoMemory>
    ensures { IfOk result (λ names. names.items ≡ peers_of listed.now) }
{
    let mut names = Vec::with_capacity(alloc, listed.len())?;
    for it in listed {
        names.push(*it.peer())?;
    }
    Ok(names)
}

// Whether no two of them are the same.
fn are_distinct<L: Ledger>(listed: &[ListedPeer<L>]) -> bool
    ensures { IsTrue result ↔ IsDistinct same_text (peers_of listed.now) }
{
    for (index, it) in listed.iter().enumerate() {
        if is_among(it.peer(), &listed[index + 1..]) {
            return false;
        }
    }
    true
}

// Whether this peer is one of the others.
fn is_among<L: Ledger>(peer: &Text64, others: &[ListedPeer<L>]) -> bool
    ensures { result ≡ list_any (same_text peer.now) (peers_of others.now) }
{
    for other in others {
        if *peer == *other.peer() {
            return true;
        }
    }
    false
}

//! The listed peers of an open day, each with its session and its seat.
ghost use Rattle.std.specs.Prelude.{All, ◌≡◌, ◌↔◌, ◌⊎◌, [], true, Err, Some, None, IfOk, IfErr, IfSome, OnOk, OnErr};
ghost use Rattle.std.specs.List.{IsDistinct};
ghost use Rattle.blot_types.specs.Keys.{same_text};
ghost use Rattle.blot_gateway.specs.AtOnce.{are_submits};
ghost use Rattle.blot_lanes.specs.Listing.{all_resumed, peers_of};
ghost use Rattle.blot_lanes.specs.Seating.{AreOwnSeats, handed_out, seat_of, with_expected, with_seat, without_seat};
ghost use Rattle.blot_session.specs.States.{IsIdle, waiting_again};
ghost use Rattle.blot_slots.specs.Slots.{IsWaiting, checked_out, slot_of, with_slot};

use crate::listed_peer::resumed_sessions;
use crate::{BrokerSeat, ListedPeer};
use blot_console::SessionLine;
use blot_desk::Seat;
use blot_session::Session;
use blot_slots::{SlotFault, SlotTable};
use blot_types::Text64;
use indexmap::IndexMap;
use std::alloc::{AllocError as NoMemory, Global};
use std::marker::Model;
use std::sync::ledger::Ledger;
use std::sync::{Mutex, Wait};

// A peer's seat, which is none while the peer is on, and the number that its session was last seen to expect.
#[derive(Drop)]
struct Peer<L: Ledger> {
    seat: Option<BrokerSeat<L>>,
    expected: u64,
}

// The listed peers, in their order. The session and the seat of each are both in, or both out.
#[derive(Drop)]
struct PeerTable<L: Ledger> {
    sessions: SlotTable,
    peers: IndexMap<Text64, Peer<L>>,
}

impl<L: Ledger> Model for PeerTable<L> {
    ghost use Rattle.blot_lanes.specs.Seating.{AreOwnSeats, Seating};

    ghost Value = { Seating L };

    ghost view = { λ table. record { sessions = table.sessions; peers = table.peers.entries } };

    ghost invariant = { λ table. AreOwnSeats table.peers.entries };
}

impl<L: Ledger> PeerTable<L> {
    // Hands out the session and the seat of a peer. All else stays as it is.
    #[tactic(auto, using(crate::proofs::PeerLemmas::handing))]
    fn check_out(&mut self, peer: &Text64) -> Result<(Session, BrokerSeat<L>), SlotFault>
        ensures answer { result ≡ handed_out (checked_out self.old.sessions peer.now) (seat_of peer.now self.old.peers) }
        ensures out { OnOk result (self.new.sessions ≡ with_slot peer.now None self.old.sessions) }
        ensures unseated { OnOk result (self.new.peers ≡ without_seat peer.now self.old.peers) }
        ensures same { OnErr result (self.new ≡ self.old) }
        ensures err { IfErr result (λ fault. (fault ≡ SlotFault.UnknownPeer) ⊎ (fault ≡ SlotFault.AlreadyOn)) }
        ensures waiting { IfOk result (λ out. IsWaiting peer.now out.0) }
        ensures idle { IfOk result (λ out. IsIdle out.0) }
        ensures of_peer { IfOk result (λ out. out.1.peer ≡ peer.now) }
    {
        let session = match self.sessions.check_out(peer) {
            Ok(session) => session,
            Err(fault) => return Err(fault),
        };
        match take_seat(&mut self.peers, peer) {
            Some(seat) => Ok((session, seat)),
            None => {
                self.sessions.take_back(session);
                Err(SlotFault::AlreadyOn)
            }
        }
    }

    // Takes them back, each under its own peer's name, where it is out. The session keeps its numbers.
    fn check_in(&mut self, session: Session, seat: BrokerSeat<L>)
        ensures session { slot_of self.old.sessions session.peer ≡ Some None
            → self.new.sessions ≡ with_slot session.peer (Some (waiting_again session)) self.old.sessions }
        ensures other { (slot_of self.old.sessions session.peer ≡ Some None → ⊥) → self.new.sessions ≡ self.old.sessions }
        ensures seat { self.new.peers ≡ with_seat seat session.expected self.old.peers }
    {
        put_seat(&mut self.peers, seat, session.expected());
        self.sessions.take_back(session);
    }

    // Notes the number that a peer's session expects.
    fn note(&mut self, peer: &Text64, expected: u64)
        ensures sessions { self.new.sessions ≡ self.old.sessions }
        ensures noted { self.new.peers ≡ with_expected expected peer.now self.old.peers }
    {
        note_expected(&mut self.peers, peer, expected);
    }

    // The session of each peer, in their order.
    fn sessions(&self, alloc: Global) -> Result<Vec<SessionLine>, NoMemory> {
        let mut lines = Vec::with_capacity(alloc, self.peers.len())?;
        for (name, peer) in self.peers.iter() {
            lines.push(SessionLine {
                peer: *name,
                is_on: peer.seat.is_none(),
                expected: peer.expected,
            })?;
        }
        Ok(lines)
    }
}

// The seat of a peer, where it is in.
fn take_seat<L: Ledger>(
    peers: &mut IndexMap<Text64, Peer<L>>,
    peer: &Text64,
) -> Option<BrokerSeat<L>>
    requires own { AreOwnSeats peers.old.entries }
    ensures seat { result ≡ seat_of peer.now peers.old.entries }
    ensures left { peers.new.entries ≡ without_seat peer.now peers.old.entries }
    ensures of_peer { IfSome result (λ seat. seat.peer ≡ peer.now) }
    ensures own { AreOwnSeats peers.new.entries }
{
    match peers.get_mut(peer) {
        Some(listed) => listed.seat.take(),
        None => None,
    }
}

// Puts a seat in under its peer's name, where the peer is listed, with the number that its session expects.
fn put_seat<L: Ledger>(peers: &mut IndexMap<Text64, Peer<L>>, seat: BrokerSeat<L>, expected: u64)
    requires own { AreOwnSeats peers.old.entries }
    ensures put { peers.new.entries ≡ with_seat seat expected peers.old.entries }
    ensures own { AreOwnSeats peers.new.entries }
{
    if let Some(peer) = peers.get_mut(seat.peer()) {
        *peer = Peer {
            seat: Some(seat),
            expected,
        };
    }
}

// Notes the number that a peer's session expects, where the peer is listed.
fn note_expected<L: Ledger>(peers: &mut IndexMap<Text64, Peer<L>>, peer: &Text64, expected: u64)
    requires { AreOwnSeats peers.old.entries }
    ensures noted { peers.new.entries ≡ with_expected expected peer.now peers.old.entries }
    ensures own { AreOwnSeats peers.new.entries }
{
    if let Some(noted) = peers.get_mut(peer) {
        noted.expected = expected;
    }
}

/// The listed peers of an open day, each with its session and its seat at the desk, for many connections at once. A contract sees the
/// blotter's CompID, which stands beside the lock.
#[derive(Drop)]
pub struct Peers<L: Ledger> {
    own: Text64,
    table: Mutex<PeerTable<L>>,
}

impl<L: Ledger> Model for Peers<L> {
    ghost use Rattle.std.specs.Prelude.{ℕ, List};

    ghost Value = { List ℕ };

    ghost view = { λ peers. peers.own };
}

impl<L: Ledger> Peers<L> {
    /// These peers, each as the day begins with it. RepeatedPeer where two of them are the same; NoMemory.
    pub fn new(
        alloc: Global,
        own: Text64,
        listed: Vec<ListedPeer<L>>,
    ) -> Result<Peers<L>, SlotFault>
        ensures own { IfOk result (λ made. made ≡ own) }
        ensures repeated { (result ≡ Err SlotFault.RepeatedPeer) ↔ (IsDistinct same_text (peers_of listed.items) → ⊥) }
        ensures err { IfErr result (λ fault. (fault ≡ SlotFault.RepeatedPeer) ⊎ (fault ≡ SlotFault.NoMemory)) }
    {
        let table = Mutex::new(seated_table(alloc, own, listed)?);
        Ok(Peers { own, table })
    }

    /// The blotter's CompID. No lock is taken.
    pub fn own(&self) -> Text64
        ensures { result ≡ self.now }
    {
        self.own
    }

    /// Hands out the session and the seat of a peer, which is on then. UnknownPeer where the peer isn't listed, AlreadyOn where they are
    /// out. No memory is taken.
    pub fn check_out(
        &self,
        rt: &impl Wait,
        peer: &Text64,
    ) -> Result<(Session, BrokerSeat<L>), SlotFault>
        ensures err { IfErr result (λ fault. (fault ≡ SlotFault.UnknownPeer) ⊎ (fault ≡ SlotFault.AlreadyOn)) }

        // The session is the peer's, and waits for its Logon; and so is the seat.
        ensures waiting { IfOk result (λ out. IsWaiting peer.now out.0) }
        ensures idle { IfOk result (λ out. IsIdle out.0) }
        ensures of_peer { IfOk result (λ out. out.1.peer ≡ peer.now) }
    {
        self.table.lock(rt).check_out(peer)
    }

    /// Takes back a session and a seat, each under its own peer's name. The session waits for a Logon again, and keeps both numbers. No memory is taken.
    pub fn check_in(&self, rt: &impl Wait, session: Session, seat: BrokerSeat<L>) {
        self.table.lock(rt).check_in(session, seat);
    }

    /// Notes the number that a peer's session expects, for those who ask.
    pub fn note(&self, rt: &impl Wait, peer: &Text64, expected: u64) {
        self.table.lock(rt).note(peer, expected);
    }

    /// The session of each peer, in their order: whether it is out, and the number that it expected when its last read was done.
    pub fn sessions(&self, rt: &impl Wait, alloc: Global) -> Result<Vec<SessionLine>, NoMemory> {
        self.table.lock(rt).sessions(alloc)
    }

    /// The seats of the peers that aren't on, in a list that has room for them: of all, where nobody is served any more.
    pub fn into_seats(self, room: Vec<Seat<L>>) -> Result<Vec<Seat<L>>, NoMemory>
        requires { room.items ≡ [] }
        ensures submits { IfOk result (λ seats. All (λ receipts. are_submits receipts ≡ true) seats.items) }
    {
        let Peers { own: _, table } = self;
        let PeerTable { sessions: _, peers } = table.into_inner();
        put_seats(room, peers)
    }
}

// The table of these peers: the session of each waits with its numbers. RepeatedPeer where two of them are the same.
fn seated_table<L: Ledger>(
    alloc: Global,
    own: Text64,
    listed: Vec<ListedPeer<L>>,
) -> Result<PeerTable<L>, SlotFault>
    ensures sessions { IfOk result (λ table. table.sessions ≡ all_resumed own listed.items) }
    ensures repeated { (result ≡ Err SlotFault.RepeatedPeer) ↔ (IsDistinct same_text (peers_of listed.items) → ⊥) }
    ensures err { IfErr result (λ fault. (fault ≡ SlotFault.RepeatedPeer) ⊎ (fault ≡ SlotFault.NoMemory)) }
{
    let sessions = resumed_sessions(alloc, own, &listed)?;
    let peers = seated(alloc, listed)?;
    Ok(PeerTable { sessions, peers })
}

// The seat of each peer, under its own name.
fn seated<L: Ledger>(
    alloc: Global,
    listed: Vec<ListedPeer<L>>,
) -> Result<IndexMap<Text64, Peer<L>>, NoMemory>
    ensures { IfOk result (λ peers. AreOwnSeats peers.entries) }
{
    let mut seated = IndexMap::with_capacity(alloc, listed.len())?;
    for it in listed {
        let (seat, expected) = it.into_seat();
        let peer = *seat.peer();
        let seat = Some(seat);
        seated.insert(peer, Peer { seat, expected })?;
    }
    Ok(seated)
}

// Puts the seats that are in.
fn put_seats<L: Ledger>(
    room: Vec<Seat<L>>,
    peers: IndexMap<Text64, Peer<L>>,
) -> Result<Vec<Seat<L>>, NoMemory>
    requires { room.items ≡ [] }
    ensures { IfOk result (λ seats. All (λ receipts. are_submits receipts ≡ true) seats.items) }
{
    let mut seats = room;
    for peer in peers.into_values() {
        if let Some(broker) = peer.seat {
            seats.push(broker.into_seat())?;
        }
    }
    Ok(seats)
}

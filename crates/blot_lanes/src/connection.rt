//! One connection of an open day, whole.
ghost use Rattle.std.specs.Prelude.{◌≡◌};
ghost use Rattle.blot_gateway.specs.Counting.{CountsItself};
ghost use Rattle.blot_lanes.specs.Lanes.{ServesConnection};
ghost use Rattle.blot_lanes.specs.Storing.{KeepsAt, kept_failures, over_store};

use crate::broker_seat::SeatAt;
use crate::{PeerNotes, PeerStore, Peers};
use blot_desk::Desk;
use blot_gateway::{
    Clock, Ended, FrameKeeper, Parties, StoredWire, Watch, Wire, greet_within, turned_by,
};
use blot_slots::SlotFault;
use blot_sockets::Door;
use blot_tag::Reader;
use blot_types::Text64;
use log::{Log, info};
use std::alloc::Global;
use std::net::{OpenStream, SocketAddr};
use std::sync::Wait;
use std::sync::ledger::Ledger;
use std::{str, time};

/// The most reads of a greeting: a connection that says nothing is closed after ten seconds.
pub const GREETING_READS: u64 = 10;

// What a lane looks at between two reads: the door. And it notes which number the session expects.
#[derive(Drop)]
struct AtDoor<'a, R, L: Ledger, H> {
    rt: &'a R,
    peers: &'a Peers<L>,
    door: &'a Door<H>,
    peer: Text64,
}

impl<'a, R: Wait, L: Ledger, H: OpenStream> Watch for AtDoor<'a, R, L, H> {
    ghost use Rattle.std.specs.Prelude.{⊤};

    ghost may_end = { ⊤ };

    fn goes_on(&self, expected: u64) -> bool {
        self.peers.note(self.rt, &self.peer, expected);
        !self.door.is_closed()
    }
}

/// Serves a connection, and drops its wire as soon as its session has ended: how it ended, which is logged. It is greeted; the session and
/// the seat of the peer that it names are checked out, served at its clock until the door is closed, and checked in again. Its messages
/// are kept at the desk, which is synced before each read and each write of the wire.
pub fn serve_connection<
    R: Wait + Log + time::Clock,
    W: Wire + Drop,
    C: Clock + Drop,
    L: Ledger,
    K: FrameKeeper,
    H: OpenStream,
>(
    rt: &R,
    alloc: Global,
    peers: &Peers<L>,
    desk: &Desk<L, K>,
    door: &Door<H>,
    address: SocketAddr,
    wire: W,
    clock: C,
) -> Ended
    ensures { ServesConnection (KeepsAt W.does K.IsKept (CountsItself K.spells_none K.numbers_after) K.events K.durable) C.ticks (kept_failures W.failures)
        peers.now (over_store wire) clock result }
{
    let notes = PeerNotes::new(peers.own());
    let store = PeerStore::new(rt, alloc, desk, &notes);
    let kept = StoredWire::new(wire, store);
    serve_over(rt, alloc, peers, desk, &notes, door, address, kept, clock)
}

// Serves a connection over any wire. The messages that bring no command are kept at the desk; those that are written are for the wire to keep.
fn serve_over<
    R: Wait + Log + time::Clock,
    W: Wire + Drop,
    C: Clock + Drop,
    L: Ledger,
    K: FrameKeeper,
    H: OpenStream,
>(
    rt: &R,
    alloc: Global,
    peers: &Peers<L>,
    desk: &Desk<L, K>,
    notes: &PeerNotes,
    door: &Door<H>,
    address: SocketAddr,
    wire: W,
    clock: C,
) -> Ended
    ensures { ServesConnection W.does C.ticks W.failures peers.now wire clock result }
{
    let mut wire = wire;
    let mut reader = Reader::new(alloc);
    let peer = match greet_within(alloc, &mut wire, &mut reader, peers.own(), GREETING_READS) {
        Ok(peer) => peer,
        Err(ended) => {
            log_stranger(rt, address, ended);
            return ended;
        }
    };
    let (session, seat) = match peers.check_out(rt, &peer) {
        Ok(out) => out,
        Err(fault) => {
            log_turned_away(rt, address, &peer, fault);
            return turned_by(fault);
        }
    };
    info!(rt; "{} on {address}", shown(peer.bytes()));
    notes.begin(rt, peer, seat.records);
    let store = PeerStore::new(rt, alloc, desk, notes);
    let sink = SeatAt::new(rt, desk, store, seat);
    let mut parties = Parties {
        wire,
        clock,
        sink,
        session,
    };
    let watch = AtDoor {
        rt,
        peers,
        door,
        peer,
    };
    let ended = parties.serve_until(alloc, &mut reader, &watch);
    log_peer(rt, &peer, ended);
    let Parties {
        wire: _wire,
        clock: _,
        sink,
        session,
    } = parties;
    let store = PeerStore::new(rt, alloc, desk, notes);
    store.keep_numbers(session.expected(), session.next());
    let mut seat = sink.into_seat();
    seat.records = notes.records(rt);
    peers.check_in(rt, session, seat);
    ended
}

// Logs how a connection of a listed peer ended.
fn log_peer<G: Log>(log: &G, peer: &Text64, ended: Ended) {
    let (number, name) = (ended.number(), shown(ended.name()));
    info!(log; "{} ended {number} {name}", shown(peer.bytes()));
}

/// Logs how a connection ended that named no listed peer.
pub(crate) fn log_stranger<G: Log>(log: &G, address: SocketAddr, ended: Ended) {
    let (number, name) = (ended.number(), shown(ended.name()));
    info!(log; "{address} ended {number} {name}");
}

// Logs how a connection ended whose peer's session isn't handed out: the peer is listed where that is out.
fn log_turned_away<G: Log>(log: &G, address: SocketAddr, peer: &Text64, fault: SlotFault) {
    match fault {
        SlotFault::AlreadyOn => log_peer(log, peer, turned_by(fault)),
        _ => log_stranger(log, address, turned_by(fault)),
    }
}

// A name, which is ASCII.
fn shown(name: &[u8]) -> &str {
    str::from_utf8(name).unwrap_or("?")
}

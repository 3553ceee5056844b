//! A broker's seat at a desk.
ghost use Rattle.std.specs.Prelude.{◌≡◌, Some, true};
ghost use Rattle.blot_fields.specs.Bringing.{brought};
ghost use Rattle.blot_tag.specs.Views.{text_of};
ghost use Rattle.blot_gateway.specs.AtOnce.{are_submits};
ghost use Rattle.blot_gateway.specs.Wires.Notice.{Handed};
ghost use Rattle.blot_lanes.specs.Seats.{TakesAs};

use crate::PeerStore;
use blot_desk::{Desk, DeskFault, Event, Reply, Seat};
use blot_gateway::{FrameKeeper, FrameSink, Heard};
use blot_tag::Frame;
use blot_types::{Command, Text64};
use std::marker::Model;
use std::sync::Wait;
use std::sync::ledger::Ledger;
use std::time::Clock;

/// A broker's seat: whose it is, for good, and its receipts, which are all of submits. A contract sees these two.
#[derive(Drop)]
pub struct BrokerSeat<L: Ledger> {
    peer: Text64,
    seat: Seat<L>,
    // How many records of their own kinds there are of the broker.
    pub(crate) records: u64,
}

impl<L: Ledger> Model for BrokerSeat<L> {
    ghost use Rattle.std.specs.Prelude.{◌≡◌, true};
    ghost use Rattle.blot_gateway.specs.AtOnce.{are_submits};
    ghost use Rattle.blot_lanes.specs.Seats.{Seated};

    ghost Value = { Seated };

    ghost view = { λ broker. record { peer = broker.peer; receipts = broker.seat } };

    ghost invariant = { λ broker. are_submits broker.seat ≡ true };
}

impl<L: Ledger> BrokerSeat<L> {
    /// The seat of this peer, of whom there are so many records of their own kinds. Its receipts are of submits.
    pub fn new(peer: Text64, seat: Seat<L>, records: u64) -> BrokerSeat<L>
        requires { are_submits seat ≡ true }
        ensures { result ≡ record { peer = peer; receipts = seat } }
    {
        BrokerSeat {
            peer,
            seat,
            records,
        }
    }

    /// The peer.
    pub(crate) fn peer(&self) -> &Text64
        ensures { result.now ≡ self.now.peer }
    {
        &self.peer
    }

    /// The seat.
    pub fn into_seat(self) -> Seat<L>
        ensures same { result ≡ self.receipts }
        ensures submits { are_submits result ≡ true }
    {
        let BrokerSeat { seat, .. } = self;
        seat
    }
}

/// A broker's seat at a desk, as the sink of a session: each command is a submit. A contract sees the seat.
#[derive(Drop)]
pub(crate) struct SeatAt<'a, R, L: Ledger, K: FrameKeeper> {
    rt: &'a R,
    desk: &'a Desk<L, K>,
    store: PeerStore<'a, R, L, K>,
    seat: BrokerSeat<L>,
}

impl<'a, R, L: Ledger, K: FrameKeeper> Model for SeatAt<'a, R, L, K> {
    ghost use Rattle.blot_lanes.specs.Seats.{Seated};

    ghost Value = { Seated };

    ghost view = { λ sink. sink.seat };
}

impl<'a, R, L: Ledger, K: FrameKeeper> SeatAt<'a, R, L, K> {
    /// The sink of a seat at that desk, beside which this store keeps its other messages.
    pub(crate) fn new(
        rt: &'a R,
        desk: &'a Desk<L, K>,
        store: PeerStore<'a, R, L, K>,
        seat: BrokerSeat<L>,
    ) -> Self
        ensures same { result ≡ seat }
        ensures submits { are_submits result.receipts ≡ true }
    {
        SeatAt {
            rt,
            desk,
            store,
            seat,
        }
    }

    /// The seat.
    pub(crate) fn into_seat(self) -> BrokerSeat<L>
        ensures { result ≡ self.entry }
    {
        let SeatAt { seat, .. } = self;
        seat
    }
}

impl<'a, R: Wait + Clock, L: Ledger, K: FrameKeeper> FrameSink for SeatAt<'a, R, L, K> {
    ghost use Rattle.blot_lanes.specs.Seats.{TakesAs};

    ghost takes = { TakesAs };

    #[tactic(auto, using(crate::proofs::SubmitLemmas::submits_kept))]
    fn take(&mut self, frame: &Frame, command: Command) -> Result<Reply, DeskFault> {
        let SeatAt {
            rt,
            desk,
            store,
            seat,
        } = self;
        let answer = seat.submit(*rt, *desk, frame, command);
        if answer.is_err() {
            store.keep_declined(frame);
        }
        answer
    }

    fn hear(&mut self, frame: &Frame, heard: Heard) {
        self.store.hear(frame, heard);
    }
}

impl<L: Ledger> BrokerSeat<L> {
    // Submits a command, which this frame brought.
    #[tactic(auto, using(crate::proofs::SubmitLemmas::submits_kept))]
    fn submit<R: Wait, K: FrameKeeper>(
        &mut self,
        rt: &R,
        desk: &Desk<L, K>,
        frame: &Frame,
        command: Command,
    ) -> Result<Reply, DeskFault>
        requires { brought (text_of frame.now) ≡ Some command }
        ensures { TakesAs self.old (Handed (record { command = command; answer = result })) self.new }
    {
        let event = Event::Submit(command);
        desk.submit_with(rt, &mut self.seat, &self.peer, event, frame.text())
    }
}

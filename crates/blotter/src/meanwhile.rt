//! What is done while brokers are served: an operator's lines are answered.
ghost use Rattle.std.specs.Prelude.{◌≡◌};

use blot_command::Rows;
use blot_console::SessionLine;
use blot_desk::{Desk, Seat};
use blot_gateway::FrameKeeper;
use blot_lanes::{Peers, Task};
use blot_operator::{OpenDay, OperatorSeat, open_lines, seat_lines};
use blot_sockets::Door;
use blot_stream::ReplayFault;
use std::alloc::{AllocError as NoMemory, Global};
use std::io::{Read, Write};
use std::net::OpenStream;
use std::sync::Wait;
use std::sync::ledger::Ledger;
use std::time::Clock;

/// An operator's lines, with the seat and the streams.
#[derive(Drop)]
pub(crate) struct Lines<'a, 'i, 'o, R, I, O, L: Ledger> {
    pub(crate) rt: &'a R,
    pub(crate) alloc: Global,
    pub(crate) input: &'i mut I,
    pub(crate) output: &'o mut O,
    pub(crate) desk: &'a Desk<L>,
    pub(crate) seat: Seat<L>,
}

impl<'a, 'i, 'o, R: Wait, I: Read, O: Write, L: Ledger> Task for Lines<'a, 'i, 'o, R, I, O, L> {
    ghost use Rattle.std.specs.Prelude.{◌≡◌, OnOk, IfSome};
    ghost use Rattle.std.specs.Io.KnownBytes.{IsAtEnd};
    ghost use Rattle.blot_operator.specs.Dialogue.{TellsLines, seat_ways};
    ghost use Rattle.blot_stream.specs.Texts.{lines_of};

    type Output = (Result<(), ReplayFault>, Seat<L>, &'i mut I, &'o mut O);

    ghost gives = { λ lines given. (given.2.ghost_name ≡ lines.input.ghost_name) × (given.3.ghost_name ≡ lines.output.ghost_name)
        × OnOk given.0 (IsAtEnd (I.remaining given.2.now))
        × OnOk given.0 (IfSome (I.remaining lines.input.now) (λ bytes.
        TellsLines seat_ways lines.seat (lines_of bytes) given.1 (O.contents lines.output.now) (O.contents given.3.now))) };

    fn run(self) -> (Result<(), ReplayFault>, Seat<L>, &'i mut I, &'o mut O) {
        let Lines {
            rt,
            alloc,
            input,
            output,
            desk,
            seat,
        } = self;
        let mut seat = seat;
        let answered = seat_lines(rt, alloc, input, output, desk, &mut seat);
        (answered, seat, input, output)
    }
}

/// An operator's lines on an open day, with the seat, the streams, the peers and the door.
#[derive(Drop)]
pub(crate) struct OpenLines<'a, 'i, 'o, R, I, O, L: Ledger, K: FrameKeeper, H> {
    pub(crate) rt: &'a R,
    pub(crate) alloc: Global,
    pub(crate) input: &'i mut I,
    pub(crate) output: &'o mut O,
    pub(crate) desk: &'a Desk<L, K>,
    pub(crate) seat: OperatorSeat<L>,
    pub(crate) peers: &'a Peers<L>,
    pub(crate) door: &'a Door<H>,
}

impl<'a, 'i, 'o, R: Wait + Clock, I: Read, O: Write, L: Ledger, K: FrameKeeper, H: OpenStream> Task
    for OpenLines<'a, 'i, 'o, R, I, O, L, K, H> {
    ghost use Rattle.std.specs.Prelude.{◌≡◌, true, OnOk};
    ghost use Rattle.blot_operator.specs.Dialogue.{HeardOf, open_ways};
    ghost use Rattle.blot_operator.specs.OpenDay.{EndsOf};

    type Output = (
        Result<(), ReplayFault>,
        OperatorSeat<L>,
        &'i mut I,
        &'o mut O,
    );

    ghost gives = { λ lines given. (given.2.ghost_name ≡ lines.input.ghost_name) × (given.3.ghost_name ≡ lines.output.ghost_name)
        × OnOk given.0 (EndsOf true (I.remaining lines.input.now) (I.remaining given.2.now))
        × OnOk given.0 (HeardOf (open_ways K.IsKept) lines.seat (I.remaining lines.input.now) given.1
        (O.contents lines.output.now) (O.contents given.3.now)) };

    fn run(
        self,
    ) -> (
        Result<(), ReplayFault>,
        OperatorSeat<L>,
        &'i mut I,
        &'o mut O,
    ) {
        let OpenLines {
            rt,
            alloc,
            input,
            output,
            desk,
            seat,
            peers,
            door,
        } = self;
        let mut seat = seat;
        let day = PeersDay {
            rt,
            peers,
            door,
            has_operators: false,
        };
        let answered = open_lines(rt, alloc, input, output, desk, &mut seat, &day);
        (answered, seat, input, output)
    }
}

/// An open day, as its operators ask of it: the sessions of the listed peers, the door, and whether operators come over a socket.
#[derive(Drop)]
pub(crate) struct PeersDay<'a, R, L: Ledger, H> {
    pub(crate) rt: &'a R,
    pub(crate) peers: &'a Peers<L>,
    pub(crate) door: &'a Door<H>,
    pub(crate) has_operators: bool,
}

impl<'a, R: Wait, L: Ledger, H: OpenStream> OpenDay for PeersDay<'a, R, L, H> {
    fn sessions(&self, alloc: Global) -> Result<Rows<SessionLine>, NoMemory> {
        Ok(Rows::new(self.peers.sessions(self.rt, alloc)?))
    }

    fn tells_makers(&self) -> bool {
        self.has_operators
    }

    fn close(&self) {
        self.door.close();
    }
}

/// Takes a reference back: this use of it is what ties it to the parameter that was lent.
pub(crate) fn take_back<T>(lent: &mut T)
    ensures { lent.new ≡ lent.old }
{}

//! A seat at a desk, as the sink of a session.
ghost use Rattle.std.specs.Prelude.{◌≡◌};

use crate::{Gate, Sink};
use blot_desk::{Desk, DeskFault, Event, Reply, Seat};
use blot_types::Command;
use std::marker::Model;
use std::sync::Wait;
use std::sync::ledger::Ledger;

/// A seat at a desk, as the sink of the session that is served at this place among those that are served at once: each command is a
/// submit, before and after which the gate is called. A contract sees the receipts of the seat.
#[derive(Drop)]
pub struct SeatSink<'a, R: Wait, L: Ledger, G: Gate> {
    rt: &'a R,
    desk: &'a Desk<L>,
    seat: Seat<L>,
    gate: &'a G,
    place: usize,
}

impl<'a, R: Wait, L: Ledger, G: Gate> Model for SeatSink<'a, R, L, G> {
    ghost use Rattle.std.specs.Prelude.{List};
    ghost use Rattle.blot_desk.specs.declared.receipt.Receipt.{Receipt};

    ghost Value = { List Receipt };

    ghost view = { λ sink. sink.seat };
}

impl<'a, R: Wait, L: Ledger, G: Gate> SeatSink<'a, R, L, G> {
    /// The sink of a seat at that desk, at this place.
    pub fn new(rt: &'a R, desk: &'a Desk<L>, seat: Seat<L>, gate: &'a G, place: usize) -> Self
        ensures { result ≡ seat }
    {
        SeatSink {
            rt,
            desk,
            seat,
            gate,
            place,
        }
    }

    /// The seat, with its receipts.
    pub fn into_seat(self) -> Seat<L>
        ensures { result ≡ self.entry }
    {
        let SeatSink {
            rt: _,
            desk: _,
            seat,
            gate: _,
            place: _,
        } = self;
        seat
    }
}

impl<'a, R: Wait, L: Ledger, G: Gate> Sink for SeatSink<'a, R, L, G> {
    ghost use Rattle.blot_gateway.specs.AtOnce.{TakesReceipt};

    ghost takes = { TakesReceipt };

    fn take(&mut self, command: Command) -> Result<Reply, DeskFault> {
        let SeatSink {
            rt,
            desk,
            seat,
            gate,
            place,
        } = self;
        gate.before(*place);
        let answer = desk.submit(*rt, seat, Event::Submit(command));
        gate.after(*place);
        answer
    }
}

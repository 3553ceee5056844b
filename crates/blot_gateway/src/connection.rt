//! One wire, whole: it is greeted, and then its peer's session is checked out, served and checked in again.
ghost use Rattle.std.specs.Prelude.{◌≡◌, IfSome};
ghost use Rattle.blot_gateway.specs.AtOnce.{IsServed, ServesWire, turned_by, wire_parts};
ghost use Rattle.blot_gateway.specs.Serving.{IsCounted};

use crate::{Clock, Ended, Gate, SeatSink, Sink, Wire, greet, serve_session};
use blot_session::CloseReason;
use blot_slots::{SlotFault, Slots};
use blot_tag::Reader;
use std::alloc::Global;
use std::sync::Wait;
use std::sync::ledger::Ledger;

/// A wire with its clock and its seat, and how it ended, once the wire is gone.
#[derive(Drop)]
pub(crate) struct Connection<'a, W, C, R: Wait, L: Ledger, G: Gate> {
    pub(crate) wire: Option<W>,
    pub(crate) clock: C,
    pub(crate) sink: SeatSink<'a, R, L, G>,
    pub(crate) ended: Ended,
}

impl<'a, W: Wire + Drop, C: Clock, R: Wait, L: Ledger, G: Gate> Connection<'a, W, C, R, L, G> {
    /// Serves the wire, and drops it as soon as its session has ended.
    pub(crate) fn serve(&mut self, rt: &R, alloc: Global, slots: &Slots)
        ensures { IfSome self.old.wire (λ wire. IsServed W.does C.ticks W.failures slots.now wire self.old.clock self.old.sink self.new.ended self.new.sink) }
    {
        let Some(mut wire) = self.wire.take() else {
            return;
        };
        self.ended = serve_wire(rt, alloc, slots, &mut wire, &mut self.clock, &mut self.sink);
    }
}

// Serves a wire: the session of the peer that its first message names, which is checked out meanwhile.
fn serve_wire<R: Wait, W: Wire, C: Clock, S: Sink>(
    rt: &R,
    alloc: Global,
    slots: &Slots,
    wire: &mut W,
    clock: &mut C,
    sink: &mut S,
) -> Ended
    ensures serves { ServesWire W.does C.ticks S.takes slots.now result (wire_parts wire.old clock.old sink.old) (wire_parts wire.new clock.new sink.new) }
    ensures counted { IsCounted (W.failures wire.old) (W.failures wire.new) result }
{
    let mut reader = Reader::new(alloc);
    let peer = match greet(alloc, wire, &mut reader, slots.own()) {
        Ok(peer) => peer,
        Err(ended) => return ended,
    };
    let mut session = match slots.check_out(rt, &peer) {
        Ok(session) => session,
        Err(fault) => return turned_by(fault),
    };
    let ended = serve_session(alloc, wire, clock, sink, &mut reader, &mut session);
    slots.check_in(rt, session);
    ended
}

/// How a wire ends whose peer's session isn't handed out.
pub fn turned_by(fault: SlotFault) -> Ended
    ensures { result ≡ turned_by fault }
{
    match fault {
        SlotFault::AlreadyOn => Ended::Closed(CloseReason::AlreadyOn),
        _ => Ended::Closed(CloseReason::CompId),
    }
}

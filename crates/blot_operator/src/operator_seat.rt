//! The seat of an operator at a desk that may keep its events.
ghost use Rattle.std.specs.Prelude.{◌≡◌, ◌≢◌, ◌+◌, ◌-◌, ◌^◌, Err, IfOk, OnErr, false, if◌then◌else◌, min};
ghost use Rattle.blot_desk.specs.declared.fault.DeskFault.TheVariants.{Broken};
ghost use Rattle.blot_desk.specs.Desk.{IsReply};
ghost use Rattle.blot_desk.specs.Keeping.{IsSpelled, IsUnwritten, is_ask};
ghost use Rattle.blot_desk.specs.Receipts.{IsOneMore, newest_of};

use crate::operated::Declined;
use blot_desk::{Desk, Event, Reply, Seat};
use blot_gateway::{Clock, FrameKeeper, RecordHead};
use blot_sockets::SystemClock;
use blot_time::Moment;
use blot_types::Text64;
use std::alloc::Global;
use std::marker::Model;
use std::sync::Wait;
use std::sync::ledger::Ledger;
use std::time;

/// The seat of an operator: whose it is, for good, and its receipts, which a contract sees; and how many records there are of the operator's events.
#[derive(Drop)]
pub struct OperatorSeat<L: Ledger> {
    seat: Seat<L>,
    operator: Operator,
}

impl<L: Ledger> Model for OperatorSeat<L> {
    ghost use Rattle.blot_operator.specs.Seats.{Named};

    ghost Value = { Named };

    ghost view = { λ operated. record { name = operated.operator.name; receipts = operated.seat } };
}

impl<L: Ledger> OperatorSeat<L> {
    /// The seat of an operator of this name, with the blotter's CompID (`own`), and how many records there are of the operator's events.
    pub fn new(seat: Seat<L>, own: Text64, name: Text64, records: u64) -> OperatorSeat<L>
        ensures { result ≡ record { name = name; receipts = seat } }
    {
        let operator = Operator { own, name, records };
        OperatorSeat { seat, operator }
    }

    /// The seat.
    pub fn into_seat(self) -> Seat<L>
        ensures { result ≡ self.receipts }
    {
        let OperatorSeat { seat, .. } = self;
        seat
    }

    /// The operator's name.
    pub fn name(&self) -> &Text64
        ensures { result.now ≡ self.now.name }
    {
        &self.operator.name
    }

    /// The greatest number of an entry that its receipts show as accepted and don't leave undone or withdrawn.
    pub(crate) fn newest(&self) -> Option<u64>
        ensures { result ≡ newest_of self.now.receipts }
    {
        self.seat.newest()
    }

    /// Takes an event to a desk, for which this line asks: the reply to it, and a receipt. The line is kept exactly where there is a reply and
    /// the event doesn't only ask.
    pub(crate) fn submit<R: Wait + time::Clock, K: FrameKeeper>(
        &mut self,
        rt: &R,
        alloc: Global,
        desk: &Desk<L, K>,
        event: Event,
        line: &[u8],
    ) -> Result<Reply, Declined>
        ensures reply { IfOk result (λ reply. IsReply event reply) }
        ensures receipt { IfOk result (λ reply. IsOneMore self.old.receipts self.new.receipts event reply) }
        ensures name { self.new.name ≡ self.old.name }
        ensures err { OnErr result (self.new ≡ self.old) }
        ensures unkept { result ≡ Err Declined.Unkept → K.IsKept × (is_ask event ≡ false) }
        ensures broken { result ≡ Err (Declined.Desk Broken) → IsUnwritten K.is_broken }
    {
        let OperatorSeat { seat, operator } = self;
        let is_ask = event.is_ask();
        let text = operator.record::<R, K>(rt, alloc, &event, line)?;
        let reply = desk.submit_with(rt, seat, &operator.name, event, &text)?;
        operator.count(is_ask);
        Ok(reply)
    }
}

// An operator, as records name one.
#[derive(Clone, Copy)]
struct Operator {
    // The blotter's CompID.
    own: Text64,
    name: Text64,
    // How many records there are of the operator.
    records: u64,
}

impl Operator {
    // The record of an event for which a line asks. One that only asks has none, and an empty text is given.
    fn record<R: time::Clock, K: FrameKeeper>(
        &self,
        rt: &R,
        alloc: Global,
        event: &Event,
        line: &[u8],
    ) -> Result<Vec<u8>, Declined>
        ensures spelled { IfOk result (λ text. IsSpelled K.spells text.items event.now) }
        ensures unkept { result ≡ Err Declined.Unkept → K.IsKept × (is_ask event.now ≡ false) }
        ensures unbroken { result ≢ Err (Declined.Desk Broken) }
    {
        if event.is_ask() {
            return Ok(Vec::new(alloc));
        }
        let head = self.head(SystemClock::new(rt).now());
        match K::line_record(alloc, &head, line, event)? {
            Some(text) => Ok(text),
            None => Err(Declined::Unkept),
        }
    }

    // What the operator's next record begins with.
    fn head(&self, now: Moment) -> RecordHead
        ensures own { result.own ≡ self.now.own }
        ensures party { result.party ≡ self.now.name }
        ensures number { result.number ≡ min (self.now.records + 1) (2 ^ 64 - 1) }
        ensures now { result.now ≡ now }
    {
        RecordHead {
            own: self.own,
            party: self.name,
            number: self.records.saturating_add(1),
            now,
        }
    }

    // Counts the record of an event to which there was a reply. One that only asks has none.
    fn count(&mut self, is_ask: bool)
        ensures own { self.new.own ≡ self.old.own }
        ensures name { self.new.name ≡ self.old.name }
        ensures records { self.new.records ≡ (if is_ask then self.old.records else min (self.old.records + 1) (2 ^ 64 - 1)) }
    {
        if !is_ask {
            self.records = self.records.saturating_add(1);
        }
    }
}

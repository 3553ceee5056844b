//! A desk that nobody shares yet.
ghost use Rattle.std.specs.Prelude.{◌≡◌, ◌≢◌, ◌↔◌, ◌<◌, [], All, Err, IfOk, OnErr, OnOk, length};
ghost use Rattle.blot_types.specs.declared.TheConstants.{EVENTS_MAX};
ghost use Rattle.blot_desk.specs.Desk.{IsRun, empty_desk, recorded_of, step_of};
ghost use Rattle.blot_desk.specs.Keeping.{kept_events};
ghost use Rattle.blot_desk.specs.Receipts.{with_receipt};

use crate::counted::Counted;
use crate::makers::Makers;
use crate::{Desk, DeskFault, Event, Held, Keeper, NoKeeper, Reply, Seat};
use blot_types::Text64;
use std::alloc::{AllocError as NoMemory, Global};
use std::marker::Model;
use std::sync::ledger::{Blank, Ledger, Share};

/// A desk that nobody shares yet. It takes up events that are kept already, each by its party's seat. A contract sees the book and the
/// history.
#[derive(Drop)]
pub struct Opening<L: Ledger> {
    alloc: Global,
    counted: Counted<L, NoKeeper>,
}

impl<L: Ledger> Model for Opening<L> {
    ghost use Rattle.blot_desk.specs.Desk.{DeskState};

    ghost Value = { DeskState };

    ghost view = { λ opening. opening.counted.desk };
}

impl<L: Ledger> Opening<L> {
    /// An empty desk, with as many seats. Out of memory, the blank is given up: begin again with another.
    pub fn new(
        alloc: Global,
        blank: Blank,
        seats: u32,
    ) -> Result<(Opening<L>, Vec<Seat<L>>), NoMemory>
        requires name { blank.name ≡ L.name }
        requires parts { blank.parts ≡ L.parts }
        requires seats { blank.parts ≡ seats }
        requires some { 0 < seats }
        ensures desk { IfOk result (λ opened. opened.0 ≡ empty_desk) }
        ensures seats { IfOk result (λ opened. length opened.1.items ≡ seats) }
        ensures empty { IfOk result (λ opened. All (λ receipts. receipts ≡ []) opened.1.items) }
    {
        let (book, share) = blank.open::<L>();
        let seats = make_seats(alloc, share, seats)?;
        let counted = Counted {
            held: Held::new(alloc),
            book,
            makers: Makers::new(alloc),
            keeper: NoKeeper {},
        };
        Ok((Opening { alloc, counted }, seats))
    }

    /// Takes up an event of this maker: the reply to it, and a receipt for the seat. Where the desk is full, or memory runs out, nothing
    /// changes.
    pub fn step(
        &mut self,
        seat: &mut Seat<L>,
        maker: &Text64,
        event: Event,
    ) -> Result<Reply, DeskFault>
        ensures reply { IfOk result (λ reply. reply ≡ (step_of self.old.book event).reply) }
        ensures taken { OnOk result (self.new ≡ recorded_of self.old event) }
        ensures receipt { IfOk result (λ reply. seat.new ≡ with_receipt (length self.old.history) event reply seat.old) }
        ensures run { IsRun self.new }
        ensures full { (result ≡ Err DeskFault.Full) ↔ (length self.old.history ≡ EVENTS_MAX) }
        ensures faults { result ≢ Err DeskFault.Unsettled }
        ensures unbroken { result ≢ Err DeskFault.Broken }
        ensures err { OnErr result ((self.new ≡ self.old) × (seat.new ≡ seat.old)) }
    {
        let answer = seat.take(self.alloc, &mut self.counted, maker, event, &[]);
        // The history promises that it is that of a run.
        let _ = self.counted.held.history();
        answer
    }

    /// What was taken up, as a desk of one's own.
    pub fn into_held(self) -> Held
        ensures { result ≡ self }
    {
        let Opening { counted, .. } = self;
        let Counted { held, .. } = counted;
        held
    }

    /// The desk, with what keeps its events: those that it took up, asks aside.
    pub fn open<K: Keeper>(self, keeper: K) -> Desk<L, K>
        requires { K.IsKept → K.events keeper ≡ kept_events self.history }
    {
        let Opening { alloc, counted } = self;
        let Counted {
            held,
            book,
            makers,
            ..
        } = counted;
        let counted = Counted {
            held,
            book,
            makers,
            keeper,
        };
        Desk::of(alloc, counted)
    }
}

// Seats without receipts, each with one part of the share.
fn make_seats<L: Ledger>(
    alloc: Global,
    share: Share<L>,
    count: u32,
) -> Result<Vec<Seat<L>>, NoMemory>
    requires parts { share.parts ≡ count }
    requires amount { share.amount ≡ 0 }
    ensures count { IfOk result (λ seats. length seats.items ≡ count) }
    ensures empty { IfOk result (λ seats. All (λ receipts. receipts ≡ []) seats.items) }
{
    let mut share = share;
    let mut seats = Vec::new(alloc);
    for _ in 0..count {
        let part = share.split_off(1, 0);
        seats.push(Seat::new(alloc, part))?;
    }
    Ok(seats)
}

//! A seat at a desk, which keeps its receipts.
ghost use Rattle.std.specs.Prelude.{◌≡◌, ◌≢◌, ◌↔◌, ◌<◌, ◌≤◌, [], false, true, length, vec_capacity, Err, IfOk, OnErr, OnOk};
ghost use Rattle.std.specs.List.{list_any};
ghost use Rattle.blot_types.specs.declared.TheConstants.{EVENTS_MAX};
ghost use Rattle.blot_desk.specs.Desk.{IsReply, recorded_of, step_of};
ghost use Rattle.blot_desk.specs.Keeping.{IsSpelled, SameKept, is_ask, with_kept};
ghost use Rattle.blot_desk.specs.Makers.{with_maker};
ghost use Rattle.blot_desk.specs.Receipts.{entered, greater, is_gone, is_withdrawal, newest_of, seen_by, seen_in, standing, with_receipt, withdraws};

use crate::counted::Counted;
use crate::{DeskFault, Event, KeepFault, Keeper, Receipt, Reply};
use blot_types::{Command, EVENTS_MAX, Text64};
use std::alloc::Global;
use std::marker::Model;
use std::sync::ledger::{Ledger, Share};

/// A seat at the desk of a ledger: whoever submits events has one. A contract sees it as its receipts, in the order in which
/// it got them.
#[derive(Drop)]
pub struct Seat<L: Ledger> {
    receipts: Vec<Receipt>,
    share: Share<L>,
}

impl<L: Ledger> Model for Seat<L> {
    ghost use Rattle.std.specs.Prelude.{◌≡◌, List, length};
    ghost use Rattle.blot_desk.specs.declared.receipt.Receipt.{Receipt};

    ghost Value = { List Receipt };

    ghost view = { λ seat. seat.receipts.items };

    ghost invariant = { λ seat. (seat.share.parts ≡ 1) × (seat.share.amount ≡ length seat.receipts.items) };
}

impl<L: Ledger> Seat<L> {
    /// A seat without receipts.
    pub(crate) fn new(alloc: Global, share: Share<L>) -> Seat<L>
        requires parts { share.parts ≡ 1 }
        requires amount { share.amount ≡ 0 }
        ensures { result ≡ [] }
    {
        Seat {
            receipts: Vec::new(alloc),
            share,
        }
    }

    /// Takes an event to a desk, which keeps it by its record unless it only asks, and notes who made it; and keeps a receipt of the reply.
    /// Where the desk is full, memory runs out, or the keeper of what doesn't only ask is broken, nothing is recorded or kept, and there is
    /// no receipt.
    pub(crate) fn take<K: Keeper>(
        &mut self,
        alloc: Global,
        counted: &mut Counted<L, K>,
        maker: &Text64,
        event: Event,
        text: &[u8],
    ) -> Result<Reply, DeskFault>
        requires { IsSpelled K.spells text.now event }
        ensures reply { IfOk result (λ reply. reply ≡ (step_of counted.old.desk.book event).reply) }
        ensures behind_a_run { IfOk result (λ reply. IsReply event reply) }
        ensures taken { IfOk result (λ reply. counted.new.desk ≡ recorded_of counted.old.desk event) }
        ensures made { IfOk result (λ reply. counted.new.makers ≡ with_maker maker.now event reply counted.old.makers) }
        ensures receipt { IfOk result (λ reply. self.new ≡ with_receipt (length counted.old.desk.history) event reply self.old) }
        ensures kept { OnOk result (K.IsKept → K.events counted.new.keeper ≡ with_kept event (K.events counted.old.keeper)) }
        ensures full { (result ≡ Err DeskFault.Full) ↔ (length counted.old.desk.history ≡ EVENTS_MAX) }
        ensures broken { (result ≡ Err DeskFault.Broken)
            ↔ ((length counted.old.desk.history ≢ EVENTS_MAX) × (is_ask event ≡ false) × (K.is_broken counted.old.keeper ≡ true)) }
        ensures err { OnErr result ((counted.new.desk ≡ counted.old.desk) × (self.new ≡ self.old)) }
        ensures unmade { OnErr result (counted.new.makers ≡ counted.old.makers) }
        ensures same { OnErr result (SameKept K.events K.found K.durable K.is_broken counted.old.keeper counted.new.keeper) }
        ensures faults { result ≢ Err DeskFault.Unsettled }
    {
        let Counted {
            held,
            book,
            makers,
            keeper,
        } = counted;
        let place = held.history().len() as u64;
        if place == EVENTS_MAX {
            drop(event);
            return Err(DeskFault::Full);
        }
        if let Err(fault) = reserve(keeper, text, &event) {
            drop(event);
            return Err(fault);
        }
        let Ok(name) = makers.reserve(maker) else {
            drop(event);
            return Err(DeskFault::NoMemory);
        };
        let Ok(()) = self.receipts.reserve(1) else {
            drop(event);
            return Err(DeskFault::NoMemory);
        };
        let Ok(copy) = event.try_copy(alloc) else {
            drop(event);
            return Err(DeskFault::NoMemory);
        };
        let reply = match held.step(event) {
            Ok(reply) => reply,
            Err(fault) => {
                drop(copy);
                return Err(fault);
            }
        };
        if !copy.is_ask() {
            keeper.keep(text, &copy);
        }
        makers.put(name, &copy, &reply);
        book.add(&mut self.share, 1);
        keep(&mut self.receipts, place, copy, &reply);
        Ok(reply)
    }

    /// What the seat was told, in that order.
    pub fn receipts(&self) -> &[Receipt]
        ensures { result.now ≡ self.now }
    {
        &self.receipts
    }

    /// The greatest number of an entry that its receipts show as accepted and don't leave undone or withdrawn. What is done again
    /// counts again. A withdrawal that is undone still counts, until its entry is done again itself. No memory is taken, so a seat
    /// whose last commands are gone is looked through once for each of these.
    pub fn newest(&self) -> Option<u64>
        ensures { result ≡ newest_of self.now }
    {
        newest_of(&self.receipts)
    }
}

// Room for the record of an event, unless it only asks.
fn reserve<K: Keeper>(keeper: &mut K, text: &[u8], event: &Event) -> Result<(), DeskFault>
    ensures room { OnOk result (is_ask event.now ≡ false → length text.now ≤ K.room keeper.new) }
    ensures broken { (result ≡ Err DeskFault.Broken) ↔ ((is_ask event.now ≡ false) × (K.is_broken keeper.old ≡ true)) }
    ensures faults { (result ≢ Err DeskFault.Full) × (result ≢ Err DeskFault.Unsettled) }
    ensures same { SameKept K.events K.found K.durable K.is_broken keeper.old keeper.new }
{
    if event.is_ask() {
        return Ok(());
    }
    match keeper.reserve(text) {
        Ok(()) => Ok(()),
        Err(KeepFault::NoMemory) => Err(DeskFault::NoMemory),
        Err(KeepFault::Broken) => Err(DeskFault::Broken),
    }
}

// Keeps a receipt among some that have room.
fn keep(receipts: &mut Vec<Receipt>, place: u64, event: Event, reply: &Reply)
    requires { length receipts.old.items < vec_capacity receipts.old }
    ensures { receipts.new.items ≡ with_receipt place event reply.now receipts.old.items }
{
    let reply = *reply;
    receipts.push_reserved(Receipt {
        place,
        event,
        reply,
    });
}

// The greatest number of an entry that some receipts show as accepted and don't leave undone or withdrawn.
fn newest_of(receipts: &[Receipt]) -> Option<u64>
    ensures { result ≡ newest_of receipts.now }
{
    let mut newest = None;
    for behind in 0..receipts.len() {
        let place = receipts.len() - 1 - behind;
        newest = newest_with(&receipts[place], &receipts[place + 1..], newest);
    }
    newest
}

// The newest number of some receipts, with one before them. It is looked at whether they leave a number undone or withdrawn only
// where it is greater than theirs.
fn newest_with(receipt: &Receipt, later: &[Receipt], newest: Option<u64>) -> Option<u64>
    ensures { result ≡ greater (standing receipt.now later.now) newest }
{
    let Some(number) = entered(&receipt.event, &receipt.reply) else {
        return newest;
    };
    if newest.is_some_and(|newest| number <= newest) || is_gone(number, later) {
        return newest;
    }
    Some(number)
}

// Whether some receipts leave a number undone or withdrawn.
fn is_gone(number: u64, receipts: &[Receipt]) -> bool
    ensures { result ≡ is_gone number receipts.now }
{
    let mut gone = false;
    let mut withdrawn = false;
    for place in 0..receipts.len() {
        let Receipt { event, reply, .. } = &receipts[place];
        gone = gone_by(number, gone, withdrawn, &receipts[..place], event, reply);
        withdrawn = withdrawn || withdraws(number, event);
    }
    gone
}

// Whether a number is gone after one receipt more. The earlier ones are looked through only where the number isn't gone, and yet
// one of them withdraws it.
#[tactic(auto, using(crate::proofs::SeatLemmas::among_receipts))]
fn gone_by(
    number: u64,
    gone: bool,
    withdrawn: bool,
    earlier: &[Receipt],
    event: &Event,
    reply: &Reply,
) -> bool
    requires gone { gone ≡ (seen_in number earlier.now).gone }
    requires withdrawn { withdrawn ≡ false → (seen_in number earlier.now).withdrawals ≡ [] }
    ensures { result ≡ (seen_by number (seen_in number earlier.now) event.now reply.now).gone }
{
    match *reply {
        Reply::Accepted(_) => gone || withdraws(number, event),
        Reply::Undone(step) => gone || step == number,
        Reply::Redone(step) if step == number => false,
        Reply::Redone(step) => gone || withdrawn && has_withdrawal(number, step, earlier),
        Reply::Refused(_) | Reply::Order(_) | Reply::Position(_) => gone,
    }
}

// Whether one of these receipts shows a number as withdrawn by this step.
fn has_withdrawal(number: u64, step: u64, receipts: &[Receipt]) -> bool
    ensures { result ≡ list_any (is_withdrawal number step) receipts.now }
{
    receipts
        .iter()
        .any(|receipt| is_withdrawal(number, step, receipt))
}

// Whether a receipt does.
fn is_withdrawal(number: u64, step: u64, receipt: &Receipt) -> bool
    ensures { result ≡ is_withdrawal number step receipt.now }
{
    match receipt.reply {
        Reply::Accepted(own) => own == step && withdraws(number, &receipt.event),
        _ => false,
    }
}

// Whether an event withdraws the entry of a number.
fn withdraws(number: u64, event: &Event) -> bool
    ensures { result ≡ withdraws number event.now }
{
    match event {
        Event::Submit(Command::Withdraw(withdrawn)) => *withdrawn == number,
        _ => false,
    }
}

// The number of the entry that an event came to, where the reply accepts it. A withdrawal comes to none.
fn entered(event: &Event, reply: &Reply) -> Option<u64>
    ensures { result ≡ entered event.now reply.now }
{
    match (event, *reply) {
        (Event::Submit(Command::Withdraw(_)), _) => None,
        (Event::Submit(_), Reply::Accepted(number)) => Some(number),
        _ => None,
    }
}

//! A desk under its lock, for many callers at once.
ghost use Rattle.std.specs.Prelude.{◌≡◌, ◌≢◌, ◌<◌, [], All, Err, IfOk, IsTrue, List, OnErr, OnOk, length};
ghost use Rattle.blot_types.specs.Legal.{is_book};
ghost use Rattle.blot_desk.specs.declared.event.Event.{Event};
ghost use Rattle.blot_desk.specs.Desk.{IsReply};
ghost use Rattle.blot_desk.specs.Keeping.{IsBeginning, IsSpelled, IsSynced, IsUnwritten, kept_events};
ghost use Rattle.blot_desk.specs.Makers.{IsFoundBy};
ghost use Rattle.blot_desk.specs.Questions.{IsFound};
ghost use Rattle.blot_desk.specs.Receipts.{IsOneMore};

use crate::counted::Counted;
use crate::makers::no_name;
use crate::syncs::Syncs;
use crate::{
    Closed, DeskFault, Event, Found, KeepFault, Keeper, NoKeeper, Opening, Question, Reply, Seat,
    Snapshot,
};
use blot_types::Text64;
use std::alloc::{AllocError as NoMemory, Global};
use std::sync::ledger::{Blank, Ledger};
use std::sync::{Mutex, Wait};

/// A desk for many callers at once, of which each has a seat. One event is one step under its lock. The keeper is synced under it too; nothing
/// else is waited for there. One sync serves all who wait for one. `L` ties the seats to their desk: a call at `Brand` of a function that
/// holds the whole run picks it. `K` keeps the events.
#[derive(Drop)]
pub struct Desk<L: Ledger, K: Keeper = NoKeeper> {
    alloc: Global,
    counted: Mutex<Counted<L, K>>,
    syncs: Syncs<K>,
}

impl<L: Ledger> Desk<L> {
    /// An empty desk, with as many seats. Out of memory, the blank is given up: begin again with another.
    pub fn new(alloc: Global, blank: Blank, seats: u32) -> Result<(Desk<L>, Vec<Seat<L>>), NoMemory>
        requires name { blank.name ≡ L.name }
        requires parts { blank.parts ≡ L.parts }
        requires seats { blank.parts ≡ seats }
        requires some { 0 < seats }
        ensures seats { IfOk result (λ opened. length opened.1.items ≡ seats) }
        ensures empty { IfOk result (λ opened. All (λ receipts. receipts ≡ []) opened.1.items) }
    {
        let (opening, seats) = Opening::new(alloc, blank, seats)?;
        Ok((opening.open(NoKeeper {}), seats))
    }

    /// Takes an event of a caller without a name: the reply to it, and a receipt for the seat. Where the desk is full, or memory runs out,
    /// nothing is recorded and the seat gets no receipt.
    pub fn submit(
        &self,
        rt: &impl Wait,
        seat: &mut Seat<L>,
        event: Event,
    ) -> Result<Reply, DeskFault>
        ensures reply { IfOk result (λ reply. IsReply event reply) }
        ensures receipt { IfOk result (λ reply. IsOneMore seat.old seat.new event reply) }
        ensures err { OnErr result (seat.new ≡ seat.old) }
        ensures faults { result ≢ Err DeskFault.Unsettled }
        ensures unbroken { result ≢ Err DeskFault.Broken }
    {
        self.submit_with(rt, seat, &no_name(), event, &[])
    }
}

impl<L: Ledger, K: Keeper> Desk<L, K> {
    /// A desk of what is under its lock.
    pub(crate) fn of(alloc: Global, counted: Counted<L, K>) -> Desk<L, K> {
        Desk {
            alloc,
            counted: Mutex::new(counted),
            syncs: Syncs::new(),
        }
    }

    /// Takes an event of this maker that a record spells: the reply to it, and a receipt for the seat. The record is kept exactly where there
    /// is a reply; that of an ask isn't. Where the desk is full, memory runs out, or the keeper is broken, nothing is recorded or kept, and
    /// the seat gets no receipt.
    pub fn submit_with(
        &self,
        rt: &impl Wait,
        seat: &mut Seat<L>,
        maker: &Text64,
        event: Event,
        text: &[u8],
    ) -> Result<Reply, DeskFault>
        requires { IsSpelled K.spells text.now event }
        ensures reply { IfOk result (λ reply. IsReply event reply) }
        ensures receipt { IfOk result (λ reply. IsOneMore seat.old seat.new event reply) }
        ensures err { OnErr result (seat.new ≡ seat.old) }
        ensures faults { result ≢ Err DeskFault.Unsettled }

        // Broken is told of a keeper that is broken.
        ensures broken { result ≡ Err DeskFault.Broken → IsUnwritten K.is_broken }
    {
        let mut counted = self.counted.lock(rt);
        let answer = seat.take(self.alloc, &mut counted, maker, event, text);
        self.syncs.count();
        answer
    }

    /// Puts a record that spells no event behind the others.
    pub fn note(&self, rt: &impl Wait, text: &[u8]) -> Result<(), KeepFault>
        requires { K.spells_none text.now }
        ensures broken { result ≡ Err KeepFault.Broken → IsUnwritten K.is_broken }
    {
        let mut counted = self.counted.lock(rt);
        let noted = counted.note(text);
        self.syncs.count();
        noted
    }

    /// Makes all events durable that are kept, by a sync of its own or by that of another who asked for one. An error is told of a keeper that is
    /// broken, and no more events are taken then.
    pub fn sync(&self, rt: &impl Wait) -> Result<(), KeepFault>
        // Ok is told of a keeper of which every event is durable.
        ensures durable { OnOk result (IsSynced K.events K.durable) }
        ensures broken { OnErr result (IsUnwritten K.is_broken) }
    {
        match self.syncs.wait(rt) {
            Some(outcome) => outcome,
            None => self.sync_for_all(rt),
        }
    }

    // Makes all events durable that are kept, for all who wait.
    fn sync_for_all(&self, rt: &impl Wait) -> Result<(), KeepFault>
        ensures durable { OnOk result (IsSynced K.events K.durable) }
        ensures broken { OnErr result (IsUnwritten K.is_broken) }
    {
        let mut counted = self.counted.lock(rt);
        let count = self.syncs.kept();
        let outcome = counted.sync();
        drop(counted);
        self.syncs.end(rt, count, outcome);
        outcome
    }

    /// The live list as it is now, which is legal.
    pub fn snapshot(&self, rt: &impl Wait) -> Result<Snapshot, NoMemory>
        ensures { IfOk result (λ snapshot. IsTrue (is_book snapshot)) }
    {
        self.counted.lock(rt).held.snapshot()
    }

    /// What a question is answered: what was found in what the desk held then. Nothing is recorded of it, and nothing changes. What is
    /// told is copied under the lock, and no text is made there. An error is out of memory.
    pub fn look(&self, rt: &impl Wait, question: &Question) -> Result<Found, NoMemory>
        ensures { IfOk result (IsFound question.now) }
    {
        self.counted.lock(rt).held.look(question)
    }

    /// What a question is answered, and who made each row of done steps and of refused commands, in their order: the names that
    /// `submit_with` was given. Both are of one moment. An error is out of memory.
    pub fn look_by(
        &self,
        rt: &impl Wait,
        question: &Question,
    ) -> Result<(Found, Vec<Text64>), NoMemory>
        ensures { IfOk result (λ found. IsFoundBy question.now found.0 found.1.items) }
    {
        self.counted.lock(rt).look_by(self.alloc, question)
    }

    /// What the desk held at last.
    pub fn close(self) -> Closed<L> {
        let (closed, _) = self.close_kept();
        closed
    }

    /// What the desk held at last, and the keeper, which keeps the recorded events, asks aside.
    pub fn close_kept(self) -> (Closed<L>, K)
        ensures kept { K.IsKept → K.events result.1 ≡ kept_events result.0.held.history }

        // Whatever the callers did, a crash now leaves a beginning of these events with all that are durable, and one at any moment since
        // the keeper was opened would have left a beginning of them.
        ensures now { (events_left : List Event) → K.leaves result.1 events_left → IsBeginning (K.durable result.1) (K.events result.1) events_left }
        ensures ever { (events_left : List Event) → K.left result.1 events_left → IsBeginning (K.found result.1) (K.events result.1) events_left }
    {
        let Desk { alloc, counted, .. } = self;
        let Counted {
            held,
            book,
            keeper,
            ..
        } = counted.into_inner();
        keeper.ever();
        (Closed::of(alloc, held, book), keeper)
    }
}

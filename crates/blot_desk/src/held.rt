//! What a desk holds.
ghost use Rattle.std.specs.Prelude.{◌≡◌, ◌≢◌, ◌↔◌, Err, All, IfOk, IfSome, OnErr, IsTrue, ◌<◌, ◌≤◌, length, vec_capacity};
ghost use Rattle.blot_types.specs.Legal.{is_book};
ghost use Rattle.blot_types.specs.Order.{order_of};
ghost use Rattle.blot_types.specs.Position.{position_of};
ghost use Rattle.blot_command.specs.Meanings.{command_meaning};
ghost use Rattle.blot_undo.specs.Laws.{LeadTo};
ghost use Rattle.blot_desk.specs.Desk.{empty_desk, list_after, newest_entry_of, step_of, recorded_of, with_recorded, IsRun, UndosGoBack, RedosReturn};
ghost use Rattle.blot_desk.specs.Questions.{found_of};

use crate::looking::{entry, newest_refusals, newest_steps};
use crate::taking::take;
use crate::{DeskFault, Event, Found, Question, Recorded, Reply, Snapshot, TakesCommands};
use blot_command::{BoxedCommand, Rows, Tables};
use blot_types::{Command, EVENTS_MAX, OrderKey, Text64};
use blot_undo::Steps;
use std::alloc::{AllocError as NoMemory, Global};
use std::marker::Model;

/// The book with its steps, done and undone, and the history of the day: each event with the reply to it. A
/// contract sees the book and the history, which are those of the run of the recorded events.
#[derive(Drop)]
pub struct Held {
    alloc: Global,
    steps: Steps<BoxedCommand>,
    history: Vec<Recorded>,
}

impl Model for Held {
    ghost use Rattle.blot_desk.specs.Desk.{DeskState, IsDeskState, desk_book};

    ghost Value = { DeskState };

    ghost view = { λ held. record { book = desk_book held.steps; history = held.history.items } };

    ghost invariant = { λ held. IsDeskState (desk_book held.steps) held.history.items };
}

impl Held {
    /// An empty book without history. No memory is taken.
    pub fn new(alloc: Global) -> Held
        ensures { result ≡ empty_desk }
    {
        Held {
            alloc,
            steps: Steps::new(alloc, Tables::new(alloc)),
            history: Vec::new(alloc),
        }
    }

    /// Takes an event: the reply to it, which is recorded with the event. Where the record is full, or memory
    /// runs out, nothing is recorded and nothing changes.
    pub fn step(&mut self, event: Event) -> Result<Reply, DeskFault>
        ensures reply { IfOk result (λ reply. reply ≡ (step_of self.old.book event).reply) }
        ensures taken { IfOk result (λ reply. self.new ≡ recorded_of self.old event) }

        // The line of an order, after any events, is that of the run of these events.
        ensures order { (order : OrderKey) → event ≡ Event.AskOrder order
            → IfOk result (λ reply. reply ≡ Reply.Order (order_of (list_after self.old.history) order)) }

        // So is a position.
        ensures position { (account symbol : Text64) → event ≡ Event.AskPosition account symbol
            → IfOk result (λ reply. reply ≡ Reply.Position (position_of (list_after self.old.history) account symbol)) }

        ensures full { (result ≡ Err DeskFault.Full) ↔ (length self.old.history ≡ EVENTS_MAX) }
        ensures faults { result ≢ Err DeskFault.Unsettled }
        ensures unbroken { result ≢ Err DeskFault.Broken }
        ensures err { OnErr result (self.new ≡ self.old) }
    {
        if self.history.len() as u64 == EVENTS_MAX {
            drop(event);
            return Err(DeskFault::Full);
        }
        let Ok(()) = self.history.reserve(1) else {
            drop(event);
            return Err(DeskFault::NoMemory);
        };
        let reply = match take(&mut self.steps, self.alloc, &event) {
            Ok(reply) => reply,
            Err(_) => {
                drop(event);
                return Err(DeskFault::NoMemory);
            }
        };
        record(&mut self.history, event, &reply);
        Ok(reply)
    }

    /// The greatest number of the live list, which is that of its last entry, or none where the list is empty. No memory is taken.
    pub fn newest_entry(&self) -> Option<u64>
        ensures newest { result ≡ newest_entry_of self.now.book.list }
        ensures greatest { IfSome result (λ newest. All (λ entry. entry.number ≤ newest) self.now.book.list) }
        ensures run { result ≡ newest_entry_of (list_after self.now.history) }
    {
        self.steps.state().newest()
    }

    /// What a question is answered. Nothing is recorded of it, and nothing changes. An error is out of memory.
    pub fn look(&self, question: &Question) -> Result<Found, NoMemory>
        ensures found { IfOk result (λ found. found ≡ found_of self.now question.now) }
        ensures run { IsRun self.now }
    {
        let tables = self.steps.state();
        match question {
            Question::Entry(number) => Ok(Found::Entry(entry(self.alloc, tables, *number)?)),
            Question::Execution(key) => Ok(Found::Execution(*key, tables.execution(key)?)),
            Question::Allocation(key) => Ok(Found::Allocation(*key, tables.allocation(key)?)),
            Question::Needs(number) => Ok(Found::Needs(tables.needs(*number))),
            Question::Steps(count) => {
                let rows = newest_steps(self.alloc, &self.steps, *count)?;
                Ok(Found::Steps(Rows::new(rows)))
            }
            Question::Refusals(count) => {
                let rows = newest_refusals(self.alloc, &self.history, *count)?;
                Ok(Found::Refusals(Rows::new(rows)))
            }
        }
    }

    /// The live list as it is now.
    pub fn snapshot(&self) -> Result<Snapshot, NoMemory>
        ensures list { IfOk result (λ snapshot. snapshot ≡ self.now.book.list) }
        ensures run { IfOk result (λ snapshot. snapshot ≡ list_after self.now.history) }
        ensures book { IfOk result (λ snapshot. IsTrue (is_book snapshot)) }

        // No more events are recorded than a day has.
        ensures few { length self.now.history ≤ EVENTS_MAX }
    {
        self.steps.state().snapshot(self.alloc)
    }

    /// The book at last; the history and the steps go.
    pub fn into_book(self) -> Tables
        ensures list { result.list ≡ self.book.list }
        ensures run { result.list ≡ list_after self.history }

        // No more events were recorded than a day has.
        ensures few { length self.history ≤ EVENTS_MAX }
    {
        self.steps.into_state()
    }

    /// The recorded events with their replies, in the order in which they came.
    pub fn history(&self) -> &[Recorded]
        ensures history { result.now ≡ self.now.history }
        ensures run { IsRun self.now }
        ensures few { length self.now.history ≤ EVENTS_MAX }

        // Each done step led from the list before it to the list after it. Any count of undos leads back to the list before so many steps,
        // and as many redos to the book as it is.
        ensures lead { LeadTo command_meaning self.now.book.done self.now.book.list }
        ensures undos { UndosGoBack self.now.book }
        ensures redos { RedosReturn self.now.book }
    {
        // The steps promise it of themselves.
        let _ = self.steps.done();
        &self.history
    }
}

impl TakesCommands for Held {
    ghost desk_of = { λ held. held };

    fn submit(&mut self, command: &Command) -> Result<Reply, DeskFault> {
        if self.history.len() as u64 >= EVENTS_MAX {
            return Err(DeskFault::Full);
        }
        let Ok(own) = command.try_copy(self.alloc) else {
            return Err(DeskFault::NoMemory);
        };
        self.step(Event::Submit(own))
    }
}

// Puts an event and the reply to it at the end of a history that has room.
fn record(history: &mut Vec<Recorded>, event: Event, reply: &Reply)
    requires { length history.old.items < vec_capacity history.old }
    ensures { history.new.items ≡ with_recorded event reply.now history.old.items }
{
    let reply = *reply;
    history.push_reserved(Recorded { event, reply });
}

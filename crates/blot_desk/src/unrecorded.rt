//! A desk that keeps no record.
ghost use Rattle.std.specs.Prelude.{◌≡◌, ◌≤◌, length};
ghost use Rattle.blot_desk.specs.declared.event.Event.TheVariants.{Submit};
ghost use Rattle.blot_desk.specs.Desk.{empty_desk, list_after, with_recorded};

use crate::ghost_list::GhostList;
use crate::submitted::Submitted;
use crate::taking::submit;
use crate::{DeskFault, Reply, TakesCommands};
use blot_command::{BoxedCommand, Tables};
use blot_places::GhostValue;
use blot_types::{Command, EVENTS_MAX};
use blot_undo::Steps;
use std::alloc::Global;
use std::marker::Model;

/// A desk that takes commands as `Held` does, and only counts its events: for a capture of which nobody asks for the record. A contract sees the
/// same of it, the book and the history, which proofs alone remember.
#[derive(Drop)]
pub struct Unrecorded {
    alloc: Global,
    steps: Steps<BoxedCommand>,
    events: u64,
    history: GhostList<Submitted>,
}

impl Model for Unrecorded {
    ghost use Rattle.std.specs.Prelude.{◌≡◌, length};
    ghost use Rattle.blot_desk.specs.Desk.{DeskState, IsDeskState, desk_book};

    ghost Value = { DeskState };

    ghost view = { λ desk. record { book = desk_book desk.steps; history = desk.history.items } };

    ghost invariant = { λ desk. IsDeskState (desk_book desk.steps) desk.history.items × (desk.events ≡ length desk.history.items) };
}

impl Unrecorded {
    /// An empty book, and no event yet. No memory is taken.
    pub fn new(alloc: Global) -> Unrecorded
        ensures { result ≡ empty_desk }
    {
        Unrecorded {
            alloc,
            steps: Steps::new(alloc, Tables::new(alloc)),
            events: 0,
            history: GhostList::new(),
        }
    }

    /// How many events came.
    pub fn events(&self) -> u64
        ensures count { result ≡ length self.now.history }
        ensures few { length self.now.history ≤ EVENTS_MAX }
    {
        self.events
    }

    /// The book at last; the steps go.
    pub fn into_book(self) -> Tables
        ensures list { result.list ≡ self.book.list }
        ensures run { result.list ≡ list_after self.history }

        // No more events came than a day has.
        ensures few { length self.history ≤ EVENTS_MAX }
    {
        self.steps.into_state()
    }
}

impl TakesCommands for Unrecorded {
    ghost desk_of = { λ desk. desk };

    fn submit(&mut self, command: &Command) -> Result<Reply, DeskFault> {
        if self.events == EVENTS_MAX {
            return Err(DeskFault::Full);
        }
        let answer = submit(&mut self.steps, self.alloc, command);
        if let Ok(reply) = &answer {
            self.events += 1;
            remember(&mut self.history, command, reply);
        }
        answer
    }
}

// Remembers a command and the reply to it after the others.
fn remember(history: &mut GhostList<Submitted>, command: &Command, reply: &Reply)
    ensures { history.new.items ≡ with_recorded (Submit command.now) reply.now history.old.items }
{
    let submitted = Submitted {
        command: GhostValue::of(command),
        reply: GhostValue::of(reply),
    };
    *history = history.followed_by(&submitted);
}

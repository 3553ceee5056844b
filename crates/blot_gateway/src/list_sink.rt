//! A sink that answers by a list, for tests.
ghost use Rattle.std.specs.Prelude.{◌≡◌, []};
ghost use Rattle.blot_gateway.specs.Memory.{ListTakes, next_answer};

use crate::Sink;
use blot_desk::{DeskFault, Reply};
use blot_types::Command;
use std::alloc::Global;
use std::marker::Model;

/// A sink that keeps the commands it is handed, and answers them by a list, one by one: for tests. After the last answer it answers Full;
/// out of memory it answers NoMemory, and keeps nothing.
#[derive(Drop)]
pub struct ListSink {
    taken: Vec<Command>,
    answers: Vec<Result<Reply, DeskFault>>,
}

impl Model for ListSink {
    ghost use Rattle.blot_gateway.specs.Memory.{Handed};

    ghost Value = { Handed };

    ghost view = { λ sink. record { taken = sink.taken.items; answers = sink.answers.items } };
}

impl ListSink {
    /// A sink that was handed nothing, with these answers.
    pub fn new(alloc: Global, answers: Vec<Result<Reply, DeskFault>>) -> ListSink
        ensures { result ≡ record { taken = []; answers = answers.items } }
    {
        ListSink {
            taken: Vec::new(alloc),
            answers,
        }
    }

    /// The commands that it keeps, in the order in which they came.
    pub fn taken(&self) -> &[Command]
        ensures { result.now ≡ self.now.taken }
    {
        self.taken.as_slice()
    }

    // The answer to the next command.
    fn next_answer(&self) -> Result<Reply, DeskFault>
        ensures { result ≡ next_answer self.now }
    {
        self.answers
            .get(self.taken.len())
            .copied()
            .unwrap_or(Err(DeskFault::Full))
    }
}

impl Sink for ListSink {
    ghost takes = { ListTakes };

    fn take(&mut self, command: Command) -> Result<Reply, DeskFault> {
        let answer = self.next_answer();
        match self.taken.push(command) {
            Ok(()) => answer,
            Err(_) => Err(DeskFault::NoMemory),
        }
    }
}

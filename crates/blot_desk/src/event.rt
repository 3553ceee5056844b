//! What comes to a desk, what it replies, and the record of both.
ghost use Rattle.std.specs.Prelude.{◌≡◌, IfOk};
ghost use Rattle.blot_desk.specs.Keeping.{is_ask};

use blot_types::{Command, OrderKey, OrderLine, PositionLine, Refused, Text64};
use std::alloc::{AllocError as NoMemory, Global};

/// What comes to a desk.
#[derive(Debug, PartialEq, Eq, Drop)]
pub enum Event {
    /// A command for the book.
    Submit(Command),
    /// The newest done step is to be undone, which the caller believes to be this one.
    Undo { newest: u64 },
    /// The step that was undone last is to be done again.
    Redo,
    /// The line of an order is asked for.
    AskOrder(OrderKey),
    /// The position of an account, `*` the house account, in a symbol is asked for.
    AskPosition(Text64, Text64),
}

impl Event {
    /// Whether it only asks.
    pub fn is_ask(&self) -> bool
        ensures { result ≡ is_ask self.now }
    {
        matches!(self, Event::AskOrder(_) | Event::AskPosition(_, _))
    }

    /// An equal event, or out of memory.
    pub fn try_copy(&self, alloc: Global) -> Result<Event, NoMemory>
        ensures { IfOk result (λ copy. copy ≡ self.now) }
    {
        match self {
            Event::Submit(command) => {
                let command = command.try_copy(alloc)?;
                Ok(Event::Submit(command))
            }
            Event::Undo { newest } => Ok(Event::Undo { newest: *newest }),
            Event::Redo => Ok(Event::Redo),
            Event::AskOrder(order) => Ok(Event::AskOrder(*order)),
            Event::AskPosition(account, symbol) => Ok(Event::AskPosition(*account, *symbol)),
        }
    }
}

/// What a desk replies to an event.
#[derive(Clone, Copy, Debug, PartialEq, Eq)]
pub enum Reply {
    /// The command is done under this number.
    Accepted(u64),
    /// The event is refused, and the book is as it was.
    Refused(Refused),
    /// The step of this number is undone.
    Undone(u64),
    /// The step of this number is done again.
    Redone(u64),
    /// The line of the order, or none where no execution of it stands.
    Order(Option<OrderLine>),
    /// The position, or none where no execution and no line of a live allocation adds to it.
    Position(Option<PositionLine>),
}

/// An event with the reply to it.
#[derive(Debug, PartialEq, Eq, Drop)]
pub struct Recorded {
    pub event: Event,
    pub reply: Reply,
}

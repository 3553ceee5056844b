//! The desk: one event at a time, answered, and recorded with its answer. `Held` keeps the book with its steps,
//! done and undone, and the history of the day; its book and its replies are those of the run of the events that
//! it recorded. `Unrecorded` only counts its events, for a capture of which nobody asks for the record. `Desk` is a
//! `Held` under its lock: each caller has a seat, which keeps a receipt of every answer, and at the end of the day the
//! receipts are compared with the history. A `Desk` tells who made each command, and a `Keeper` keeps its events, each by a record that
//! spells it.
#![tactic(auto)]

mod closed;
mod counted;
mod desk;
mod event;
mod fault;
mod ghost_list;
mod held;
mod keeper;
mod looking;
mod makers;
mod opening;
mod question;
mod receipt;
mod seat;
mod settling;
mod submitted;
mod syncs;
mod takes_commands;
mod taking;
mod unrecorded;

pub use blot_command::Snapshot;
pub use closed::{Closed, Settled};
pub use desk::Desk;
pub use event::{Event, Recorded, Reply};
pub use fault::DeskFault;
pub use held::Held;
pub use keeper::{KeepFault, Keeper, NoKeeper};
pub use opening::Opening;
pub use question::{CommandKey, Found, Question, RefusalRow, StepRow};
pub use receipt::Receipt;
pub use seat::Seat;
pub use takes_commands::TakesCommands;
pub use unrecorded::Unrecorded;

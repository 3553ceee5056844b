//! Commands and their inverses. `Undoable` is what a command of any kind promises: exactly when it is
//! accepted, what the state is after it, and that its inverse restores the state before. `Tables` is the
//! book: its live list of entries with the chains, the allocations and the positions, and the fills that
//! stand; each kind of command keeps that promise on it. A `Snapshot` has the list, and what each of its entries comes to.
#![tactic(auto)]

mod accounts;
mod alloc_cancel;
mod alloc_new;
mod alloc_replace;
mod blocked;
mod booking;
mod boxed_command;
mod boxed_entry;
mod bust;
mod command;
mod correct;
mod entering;
mod fault;
mod inverse;
mod linking;
mod live;
mod questions;
mod refusal;
mod reported;
mod rows;
mod slots;
mod snapshot;
mod standing;
mod tables;
mod trade;
mod undoable;
mod withdrawing;

pub use boxed_command::BoxedCommand;
pub use boxed_entry::BoxedEntry;
pub use fault::ApplyFault;
pub use inverse::Inverse;
pub use questions::{AllocationAnswer, ExecutionAnswer};
pub use reported::{Reported, Told};
pub use rows::Rows;
pub use snapshot::Snapshot;
pub use standing::Standing;
pub use tables::Tables;
pub use undoable::Undoable;
pub use withdrawing::withdraw;

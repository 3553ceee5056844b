//! The operators of an open day who come over a socket, many at once: each connection names itself, and has the seat of that name while it is
//! on. A terminal is what an operator sits at: bytes that come, and bytes that go back.
#![tactic(auto)]

mod naming;
mod operators;
mod patient;
mod terminals;

pub use operators::{NameFault, OPERATORS_MAX, Operators};
pub use terminals::{Room, TERMINALS, Terminals};

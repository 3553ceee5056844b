//! Callers of the crates that can be used by themselves, as docs/CALLING.md shows them: what each can promise in its turn is proved
//! from the contracts of what it calls. Two types of commands that know nothing of a book, a run of the stack over any type, and a
//! wire, a clock and a sink of one's own. The tests that call them stand in `tests/`.
#![tactic(auto)]

mod bytes;
mod counter;
mod places;
mod round_trip;
mod tape;

pub use bytes::{day_of, has_frame, logout, number_of, worth};
pub use counter::{Add, AddFault, TOTAL_MAX};
pub use places::{PLACES, Put, PutFault, Was};
pub use round_trip::there_and_back;
pub use tape::{Tape, TapedClock, TapedSink, TapedWire};

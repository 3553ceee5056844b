//! Live connections. A wire is greeted, and then one session is served over it: what the wire gives comes to the session frame by
//! frame, what the session sends is written, what it delivers goes to a sink. Wire, clock and sink are the caller's. Wires of a
//! desk are served at once, each with a seat. `seen_reply` is for those who give frames to a session without a wire; `MemoryWire`,
//! `ListClock` and `ListSink` serve tests.
#![tactic(auto)]

mod at_once;
mod calling;
mod connection;
mod ended;
mod epoch;
mod frame_keeper;
mod gate;
mod greeting;
mod lent;
mod list_clock;
mod list_sink;
mod memory_wire;
mod parties;
mod piece;
mod seat_sink;
mod serving;
mod stopping;
mod stored_wire;
mod watch;
mod wire;
mod writing;

pub use at_once::serve;
pub use calling::seen_reply;
pub use connection::turned_by;
pub use ended::{Ended, READS_MAX};
pub use epoch::first_moment;
pub use frame_keeper::{FrameKeeper, RecordHead};
pub use gate::{Gate, OpenGate};
pub use greeting::{greet, greet_within};
pub use list_clock::ListClock;
pub use list_sink::ListSink;
pub use memory_wire::MemoryWire;
pub use parties::Parties;
pub use piece::{PIECE, empty_piece};
pub use seat_sink::SeatSink;
pub use serving::{serve_session, serve_session_within};
pub use stopping::LAST_READS;
pub use stored_wire::{MessageStore, StoreFault, StoredWire};
pub use watch::Watch;
pub use wire::{Clock, FrameSink, Heard, Reading, Sink, Wire, Writing};

//! The session with one peer: which message is next, what was lost and what is asked for again. A session is a
//! pure core: frames, replies and moments go in, and what it sends, delivers and ends comes out. It knows no
//! book and no socket. FIX 4.4 volume 2, "Session protocol"; docs/SESSION.md has its table.
#![tactic(auto)]

mod action;
mod carrying;
mod delivery;
mod expected;
mod inbound;
mod logons;
mod met;
mod outbound;
mod replies;
mod reports;
mod row;
mod session;
mod state;
mod tags;
mod taking;
mod ticks;
mod writing;

pub use action::{Action, Bytes, CloseReason};
pub use delivery::delivered;
pub use met::Met;
pub use replies::{NotTaken, SeenReply};
pub use session::Session;
pub use state::Phase;

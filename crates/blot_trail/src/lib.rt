//! The audit trail of a capture: what became of each message, in the order of the stream, what its session would have sent, the bytes
//! that are no message, and the sums.
#![tactic(auto)]

mod auditing;
mod noting;
mod telling;
mod trail;
mod word;
mod wording;

pub use auditing::audit;

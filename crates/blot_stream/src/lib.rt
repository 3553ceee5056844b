//! Bytes in and out of the program, a piece at a time, and how a run over them ends: the faults that stop it, its status and its
//! last line. All is generic over what is read and written.
#![tactic(auto)]

mod outcome;
mod transfer;

pub use outcome::{Outcome, ReplayFault, ServeFault};
pub use transfer::{read_piece, write_retrying, write_text};

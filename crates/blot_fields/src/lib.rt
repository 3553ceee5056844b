//! What a message says, or the first fault that it has. The fields of a frame are read by the
//! tables of FIX 4.4, row by row, into values of their own types; or the answer is the one fault
//! that comes first in the standard's order. A message about a trade gives the book's command.
#![tactic(auto)]

mod admin;
mod allocation;
mod command;
mod decoding;
mod drafts;
mod fault;
mod first;
mod forms;
mod groups;
mod head;
mod index;
mod kinds;
mod message;
mod occurrence;
mod report;
mod rows;
mod sender;
mod sound;
mod text;

pub use admin::Admin;
pub use allocation::{Allocation, AllocationLine, AllocationTerms};
pub use command::{command_of, command_of_report};
pub use decoding::{decode, is_out_of_memory};
pub use fault::{FieldFault, FieldReason};
pub use first::{first_text, first_value};
pub use head::{Head, head_in};
pub use message::{Body, Message};
pub use report::{Execution, OrderSize, Report};
pub use sender::sender_of;
pub use text::Text;

/// The largest MsgSeqNum(34). This project's rule.
pub const SEQUENCE_MAX: u64 = 999_999_999;

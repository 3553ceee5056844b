//! The client of a served day's operators: what a typed line asks, when its answer is complete, and the conversation over
//! the two. All is generic over what is read and written.
#![tactic(auto)]

mod ahead;
mod answers;
mod asking;
mod fault;
mod typing;

pub use answers::is_complete;
pub use asking::ask;
pub use fault::AskFault;
pub use typing::typed;

//! The words of the program's command line, as `clap` reads and explains them: what they ask for, or why they are refused and what is
//! told then.
#![tactic(auto)]

mod command_line;
mod help;
mod peers;
mod refusal;
mod words;

pub use refusal::Refusal;
pub use words::{DeskSource, Words, given, parse};

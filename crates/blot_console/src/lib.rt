//! An operator's line to an ask, an answer to its text. A line says what is asked by its first word, and of what by the
//! words after it; or the answer is the line's first fault. What the desk replies is told in lines of the same
//! kind.
#![tactic(auto)]

mod allocate;
mod answer;
mod ask;
mod digits;
mod entries;
mod fault;
mod forms;
mod found;
mod kinds;
mod lines;
mod naming;
mod open_day;
mod parsing;
mod questions;
mod rows;
mod telling;
mod words;

pub use answer::{Answer, answer_text};
pub use ask::Ask;
pub use blot_command::Rows;
pub use fault::LineFault;
pub use naming::{Naming, naming_text, parse_name};
pub use open_day::{DayAsk, SessionLine, parse_day_line};
pub use parsing::{LINE_MAX, parse_line};
pub use telling::{put_number, put_word};

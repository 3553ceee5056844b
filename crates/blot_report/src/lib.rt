//! The report of a day: the lines of the orders and of the positions that stand on it, over a book or a
//! snapshot of it, and the text of these lines.
#![tactic(auto)]

mod day;
mod lines;
mod orders;
mod parallel;
mod parts;
mod pieces;
mod positions;
mod standing;
mod text;
mod whole;

pub use day::day_lines;
pub use lines::{DayLines, OrderRow, PositionRow};
pub use parallel::day_lines_parallel;
pub use text::{put_order_line, put_position_line, report_text, sign_word};
pub use whole::{order_lines, position_lines};

//! An operator's lines, read from an input: each is taken to a desk, one's own or one of many by a seat, and its answer is written
//! before the next line is taken.
#![tactic(auto)]

mod answering;
mod durable;
mod lines;
mod operated;
mod operating;
mod operator_seat;

pub use blot_console::{Rows, SessionLine};
pub use durable::write_durable;
pub use lines::keep_byte;
pub use operated::OpenDay;
pub use operating::{desk_lines, open_lines, seat_lines};
pub use operator_seat::OperatorSeat;

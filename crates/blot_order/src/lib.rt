//! The fills of executions by their number, and the lines of their orders. A fill is put under the number
//! that brought it, is taken and kept there, and is put again. The line of an order comes from the fills
//! that are put, in rising order of number; what they come to is counted as they come and go.
#![tactic(auto)]

mod cell;
mod cells;
mod fill_numbers;
mod orders;
mod slots;
mod stored_fill;
mod totals;

pub use orders::Orders;
pub use stored_fill::FillState;

//! Exact decimals: what a text of digits with at most one point is worth, and the shortest text of
//! a number. A text is one exact quantity or price, or the first fault that applies. Sums and
//! values are counted in whole units, so nothing is rounded anywhere.
#![tactic(auto)]

mod fault;
mod price;
mod printing;
mod qty;
mod qty_sum;
mod reading;
mod sums;
mod value;
mod wide;

pub use fault::DecimalFault;
pub use price::Price;
pub use qty::Qty;
pub use qty_sum::QtySum;
pub use sums::{minus, plus};
pub use value::Value;

//! The plain slow program: each definition of what a list of entries means, computed from the whole list
//! each time. Every faster body is compared with it.
#![tactic(auto)]

mod allocations;
mod amounts;
mod chains;
mod instructions;
mod orders;
mod parts;
mod positions;
mod refusals;
mod rules;
mod surviving;
mod withdrawal;

pub use allocations::named_roots;
pub use chains::{bust_of, current, number_of, root_of};
pub use orders::order_of;
pub use positions::position_of;
pub use refusals::{accepts, legal};
pub use surviving::survivors;
pub use withdrawal::blocked_of;

//! The positions of accounts in symbols: how many parts were added to each and not taken away since, and the
//! sums of their quantities and values. A position is shown while it has a part. A cell that was made for a
//! position stays, so that a part that was taken away is added again without memory.
#![tactic(auto)]

mod cell;
mod positions;
mod sums;

pub use positions::Positions;
pub use sums::Sums;

/// The most parts that a position may have.
pub const PARTS_MAX: u64 = 1 << 62;

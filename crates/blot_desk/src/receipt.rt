//! What a caller of a desk was told.

use crate::{Event, Reply};

/// What a caller of a desk was told: the reply to its event, and where both stand in the history.
#[derive(Debug, PartialEq, Eq, Drop)]
pub struct Receipt {
    /// The place in the history, from 0.
    pub place: u64,
    pub event: Event,
    pub reply: Reply,
}

//! What an operator asks.

use blot_desk::{Event, Question};
use blot_time::Day;
use blot_types::Text64;

/// What an operator's line asks.
#[derive(Debug, PartialEq, Eq, Drop)]
pub enum Ask {
    /// That the desk takes an event.
    Step(Event),
    /// The report of a day.
    Report(Day),
    /// That the newest entry is withdrawn: of the desk, or of the seat where one asks.
    Mine,
    /// What the desk finds to a question.
    Look(Question),
    /// The lines of all orders, or of those of a peer.
    Orders(Option<Text64>),
    /// The lines of all positions, or of those of an account.
    Positions(Option<Text64>),
}

//! What the report of a day shows.

use blot_command::Rows;
use blot_time::Day;
use blot_types::{OrderKey, OrderLine, PositionKey, PositionLine};

/// The lines of a day: those of the executions that stand and of the live allocations of that day alone.
#[derive(Debug, PartialEq, Eq, Drop)]
pub struct DayLines {
    pub day: Day,
    /// The orders by peer and then by OrderID, by their bytes, each once.
    pub orders: Rows<OrderRow>,
    /// The positions by account and then by symbol, by their bytes, each once.
    pub positions: Rows<PositionRow>,
}

/// An order with its line.
#[derive(Clone, Copy, Debug, PartialEq, Eq)]
pub struct OrderRow {
    pub order: OrderKey,
    pub line: OrderLine,
}

/// A position with its line.
#[derive(Clone, Copy, Debug, PartialEq, Eq)]
pub struct PositionRow {
    pub position: PositionKey,
    pub line: PositionLine,
}

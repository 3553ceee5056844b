//! What the book shows: the line of an order, which grows a fill at a time, and the line of a position.
ghost use Rattle.std.specs.Prelude.{◌≡◌, ℕ, ◌+◌, ◌^◌, pos, neg_ℤ, ◌+ℤ◌, ◌-ℤ◌, ◌*ℤ◌, ◌≤ℤ◌, Some};
ghost use Rattle.std.specs.Int.{int_max};
ghost use Rattle.blot_types.specs.Order.{cum_before, value_before, with_fill, IsWithin};

use crate::{EVENTS_MAX, ExecKey, Fill, Sign, Text64};
use blot_decimal::{Qty, QtySum, Value};

/// The fill that an execution stands for, under the number of the entry that brought it.
#[derive(Clone, Copy, Debug, PartialEq, Eq)]
pub struct Version {
    pub number: u64,
    pub key: ExecKey,
    pub fill: Fill,
}

/// An order as the surviving executions have filled it.
#[derive(Clone, Copy, Debug, PartialEq, Eq)]
pub struct OrderLine {
    /// The quantity filled, in units of 10^-6.
    pub cum: QtySum,
    /// What is left of the order's size, never below 0, in units of 10^-6.
    pub leaves: QtySum,
    /// The sum of quantity times price, without the side's sign, in units of 10^-14.
    pub value: Value,
    pub symbol: Text64,
    pub sign: Sign,
}

impl OrderLine {
    /// The line with one more fill: the sums grow by it, and symbol, sign and size are the fill's.
    pub fn with_fill(line: Option<OrderLine>, fill: &Fill) -> OrderLine
        requires few { IsWithin EVENTS_MAX line }
        ensures line { result ≡ with_fill line fill.now }
        ensures grows { (n : ℕ) → IsWithin n line → IsWithin (n + 1) (Some result) }
    {
        let (cum, value) = sums_of(line);
        let cum = cum_with(cum, fill.qty);
        let value = value_with(value, fill);
        let leaves = leaves_of(fill.size.units(), cum);
        OrderLine {
            cum: QtySum::from_units(cum),
            leaves: QtySum::from_units(leaves),
            value: Value::from_units(value),
            symbol: fill.symbol,
            sign: fill.sign,
        }
    }
}

// The sums of a line, 0 without one.
fn sums_of(line: Option<OrderLine>) -> (i128, i128)
    ensures cum { result.0 ≡ cum_before line }
    ensures value { result.1 ≡ value_before line }
{
    match line {
        None => (0, 0),
        Some(line) => (line.cum.units(), line.value.units()),
    }
}

// The quantity filled, with one more fill.
fn cum_with(cum: i128, qty: Qty) -> i128
    requires low { pos 0 ≤ℤ cum }
    requires high { cum ≤ℤ pos (10 ^ 38) }
    ensures value { result ≡ cum +ℤ pos qty }
    ensures low { cum ≤ℤ result }
    ensures high { result ≤ℤ (cum +ℤ pos (10 ^ 16)) }
{
    cum + i128::from(qty.units())
}

// The value, with one more fill.
fn value_with(value: i128, fill: &Fill) -> i128
    requires low { neg_ℤ (pos (10 ^ 38)) ≤ℤ value }
    requires high { value ≤ℤ pos (10 ^ 38) }
    ensures value { result ≡ value +ℤ (pos fill.now.qty *ℤ fill.now.price) }
    ensures low { (value -ℤ pos (10 ^ 32)) ≤ℤ result }
    ensures high { result ≤ℤ (value +ℤ pos (10 ^ 32)) }
{
    value + fill.qty.times(fill.price).units()
}

/// What is left of a size, never below 0, both in units of 10^-6.
pub fn leaves_of(size: i128, cum: i128) -> i128
    requires { pos 0 ≤ℤ cum }
    ensures { result ≡ int_max (pos 0) (size -ℤ cum) }
{
    if cum < size { size - cum } else { 0 }
}

/// A position of an account in a symbol.
#[derive(Clone, Copy, Debug, PartialEq, Eq)]
pub struct PositionLine {
    /// The signed quantity, in units of 10^-6.
    pub qty: QtySum,
    /// The signed sum of quantity times price, in units of 10^-14.
    pub value: Value,
}

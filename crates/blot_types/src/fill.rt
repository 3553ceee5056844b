//! What an execution brings to an order.
ghost use Rattle.std.specs.Prelude.{◌≡◌};
ghost use Rattle.blot_types.specs.Refusals.{same_sign};
ghost use Rattle.blot_types.specs.Withdrawal.{alike};

use crate::{OrderKey, Text64};
use blot_decimal::{Price, Qty, QtySum};
use blot_time::Day;

/// Whether an execution adds to a position or takes from it: sides 1 and 3 buy, 2, 4, 5 and 6 sell.
/// FIX 4.4 volume 4, Side(54); the grouping is this project's rule.
#[derive(Clone, Copy, Debug, PartialEq, Eq)]
pub enum Sign {
    Buy,
    Sell,
}

/// One execution's fill of an order. FIX 4.4 volume 4, Execution Report.
#[derive(Clone, Copy, Debug, PartialEq, Eq)]
pub struct Fill {
    /// The order that was filled.
    pub order: OrderKey,
    /// The account, where the report names one.
    pub account: Option<Text64>,
    pub symbol: Text64,
    pub sign: Sign,
    /// The size of the order as this report gives it, in units of 10^-6.
    pub size: QtySum,
    /// The quantity of this fill, in units of 10^-6.
    pub qty: Qty,
    /// The price of this fill, in units of 10^-8.
    pub price: Price,
    /// The day of the execution.
    pub day: Day,
}

impl Fill {
    /// Whether an allocation may take one fill for the other: they have the same symbol, sign and quantity.
    pub fn is_alike(&self, other: &Fill) -> bool
        ensures { result ≡ alike self.now other.now }
    {
        self.symbol == other.symbol && is_same_sign(self.sign, other.sign) && self.qty == other.qty
    }
}

/// Whether two signs are one.
pub(crate) fn is_same_sign(a: Sign, b: Sign) -> bool
    ensures { result ≡ same_sign a b }
{
    match (a, b) {
        (Sign::Buy, Sign::Buy) | (Sign::Sell, Sign::Sell) => true,
        (Sign::Buy, Sign::Sell) | (Sign::Sell, Sign::Buy) => false,
    }
}

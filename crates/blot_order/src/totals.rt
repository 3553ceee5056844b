//! What the fills of an order that are put come to.
ghost use Rattle.std.specs.Prelude.{◌≡◌, pos, ◌≤ℤ◌};
ghost use Rattle.blot_order.specs.Totals.{no_fills, with_one, without_one, line_with, Fits, AreSmall};

use crate::stored_fill::StoredFill;
use blot_decimal::{QtySum, Value, minus, plus};
use blot_types::{OrderLine, leaves_of};

/// What the fills of an order that are put come to.
#[derive(Clone, Copy)]
pub(crate) struct Totals {
    /// The sum of their quantities, in units of 10^-6.
    pub(crate) cum: i128,
    /// The sum of quantity times price, in units of 10^-14.
    pub(crate) value: i128,
}

impl Totals {
    /// Those of no fills.
    pub(crate) fn none() -> Totals
        ensures { result ≡ no_fills }
    {
        Totals { cum: 0, value: 0 }
    }

    /// The totals with one more fill.
    pub(crate) fn with_one(self, held: &StoredFill) -> Totals
        requires { AreSmall self }
        ensures totals { result ≡ with_one held.now.fill self }
        ensures fits { Fits held.now.fill }
    {
        Totals {
            cum: plus(self.cum, i128::from(held.qty().units())),
            value: plus(self.value, held.qty().times(held.price()).units()),
        }
    }

    /// The totals with one fill less.
    pub(crate) fn without_one(self, held: &StoredFill) -> Totals
        requires { AreSmall self }
        ensures { result ≡ without_one held.now.fill self }
    {
        Totals {
            cum: minus(self.cum, i128::from(held.qty().units())),
            value: minus(self.value, held.qty().times(held.price()).units()),
        }
    }

    /// The line of an order with these totals, whose last fill is this one.
    pub(crate) fn line_with(self, last: &StoredFill) -> OrderLine
        requires { pos 0 ≤ℤ self.cum }
        ensures { result ≡ line_with self last.now.fill }
    {
        OrderLine {
            cum: QtySum::from_units(self.cum),
            leaves: QtySum::from_units(leaves_of(last.size().units(), self.cum)),
            value: Value::from_units(self.value),
            symbol: last.symbol(),
            sign: last.sign(),
        }
    }
}

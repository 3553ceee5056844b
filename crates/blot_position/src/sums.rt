//! What the parts of a position come to.
ghost use Rattle.std.specs.Prelude.{◌≡◌};
ghost use Rattle.blot_position.specs.Sums.{no_parts, with_one, without_one, line_by, HasRoom, HasPart};

use blot_decimal::{QtySum, Value, minus, plus};
use blot_types::PositionLine;

/// What the parts of a position come to. A contract sees the positions as the finite map from account and
/// symbol to this.
#[derive(Clone, Copy, Debug, PartialEq, Eq)]
pub struct Sums {
    /// How many parts there are.
    pub parts: u64,
    /// The sum of their signed quantities, in units of 10^-6.
    pub qty: QtySum,
    /// The sum of their signed values, in units of 10^-14.
    pub value: Value,
}

impl Sums {
    /// The sums of no parts.
    pub(crate) fn none() -> Sums
        ensures { result ≡ no_parts }
    {
        Sums {
            parts: 0,
            qty: QtySum::from_units(0),
            value: Value::from_units(0),
        }
    }

    /// The sums with one more part.
    pub(crate) fn with_part(self, qty: QtySum, value: Value) -> Sums
        requires { HasRoom self qty value }
        ensures { result ≡ with_one qty value self }
    {
        Sums {
            parts: self.parts + 1,
            qty: QtySum::from_units(plus(self.qty.units(), qty.units())),
            value: Value::from_units(plus(self.value.units(), value.units())),
        }
    }

    /// Adds one part.
    pub(crate) fn add(&mut self, qty: QtySum, value: Value)
        requires { HasRoom self.old qty value }
        ensures { self.new ≡ with_one qty value self.old }
    {
        *self = self.with_part(qty, value);
    }

    /// The sums with one part less.
    pub(crate) fn without_part(self, qty: QtySum, value: Value) -> Sums
        requires { HasPart self qty value }
        ensures { result ≡ without_one qty value self }
    {
        Sums {
            parts: self.parts - 1,
            qty: QtySum::from_units(minus(self.qty.units(), qty.units())),
            value: Value::from_units(minus(self.value.units(), value.units())),
        }
    }

    /// The line of a position with these sums, or none without a part.
    pub(crate) fn line(self) -> Option<PositionLine>
        ensures { result ≡ line_by self }
    {
        if self.parts == 0 {
            return None;
        }
        Some(PositionLine {
            qty: self.qty,
            value: self.value,
        })
    }
}

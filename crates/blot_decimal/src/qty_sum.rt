//! Sums of quantities.
ghost use Rattle.std.specs.Prelude.{◌≡◌, Some, Ok};
ghost use Rattle.std.specs.Fmt.{DisplaysOnOk};
ghost use Rattle.blot_decimal.specs.declared.qty_sum.TheConstants.QtySum.{PLACES};
ghost use Rattle.blot_decimal.specs.Meaning.{exact_of};
ghost use Rattle.blot_decimal.specs.Printed.{printed, IsShortest};

use crate::printing::write_wide_units;
use crate::wide::Wide;
use std::fmt;
use std::marker::Model;

/// A sum of quantities, with a sign: a whole number of units of 10^-6. A contract sees it as the
/// number of its units. Its text is the shortest exact decimal: no point for a whole number,
/// at least one digit before a point, and after it no zero at the end.
#[derive(Clone, Copy, Debug, PartialEq, Eq, PartialOrd, Ord, Hash)]
pub struct QtySum(Wide);

impl Model for QtySum {
    ghost use Rattle.std.specs.Prelude.{ℤ};

    ghost Value = { ℤ };

    ghost view = { λ sum. sum.0 };

    ghost inverse = { λ units. record { 0 = units } };
}

impl QtySum {
    /// How many decimals a sum of quantities keeps.
    pub const PLACES: u32 = 6;

    /// The sum of so many units of 10^-6.
    pub fn from_units(units: i128) -> QtySum
        ensures { result ≡ units }
    {
        QtySum(Wide::from_units(units))
    }

    /// How many units of 10^-6 it is.
    pub fn units(self) -> i128
        ensures { result ≡ self }
    {
        self.0.units()
    }
}

impl fmt::Display for QtySum {
    ghost output = { λ sum. Some (printed PLACES sum) };

    fn fmt<W: fmt::Write>(&self, f: &mut fmt::Formatter<W>) -> fmt::Result
        ensures writes { DisplaysOnOk W.write_str_gives f.old result
            (Some (printed PLACES self.now)) f.new }

        // What is printed is read again as the same number, and no such text is shorter.
        ensures read_again { exact_of PLACES (printed PLACES self.now) ≡ Ok self.now }
        ensures shortest { IsShortest PLACES self.now (printed PLACES self.now) }
    {
        write_wide_units(f, self.0.units(), Self::PLACES)
    }
}

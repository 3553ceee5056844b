//! Prices.
ghost use Rattle.std.specs.Prelude.{◌≡◌, ℕ, ◌<◌, ◌↔◌, ℤ, unsigned_abs, IsTrue, IfOk, Some, Ok};
ghost use Rattle.std.specs.Fmt.{DisplaysOnOk};
ghost use Rattle.blot_decimal.specs.declared.price.TheConstants.Price.{PLACES};
ghost use Rattle.blot_decimal.specs.declared.reading.TheConstants.{SIZE_LIMIT};
ghost use Rattle.blot_decimal.specs.Text.{is_decimal, with_leading_zeros, with_trailing_zeros};
ghost use Rattle.blot_decimal.specs.Meaning.{IsValue, with_sign, price_units, within, price_of};
ghost use Rattle.blot_decimal.specs.Printed.{printed, IsShortest};

use crate::fault::DecimalFault;
use crate::printing::write_units;
use crate::reading::{read_size, split_sign};
use std::fmt;
use std::marker::Model;

/// A price: a whole number of units of 10^-8 with its sign, below 10^16 in size. A contract sees
/// it as the number of its units. Its text is the shortest exact decimal: no point for a whole number,
/// at least one digit before a point, and after it no zero at the end.
#[derive(Clone, Copy, Debug, PartialEq, Eq, PartialOrd, Ord, Hash)]
pub struct Price(i64);

impl Model for Price {
    ghost use Rattle.std.specs.Prelude.{ℤ, ◌<◌, unsigned_abs};
    ghost use Rattle.blot_decimal.specs.declared.reading.TheConstants.{SIZE_LIMIT};

    ghost Value = { ℤ };

    ghost view = { λ price. price.0 };

    ghost invariant = { λ price. unsigned_abs price.0 < SIZE_LIMIT };

    ghost inverse = { λ units. record { 0 = units } };
}

impl Price {
    /// How many decimals a price keeps.
    pub const PLACES: u32 = 8;

    /// How many units of 10^-8 it is.
    pub fn units(self) -> i64
        ensures value { result ≡ self }
        ensures range { unsigned_abs result < SIZE_LIMIT }
    {
        self.0
    }

    /// Reads a decimal text: the exact number, or the first fault that applies.
    pub fn read(text: &[u8]) -> Result<Price, DecimalFault>
        ensures meaning { result ≡ price_of text.now }
        ensures value { IfOk result (λ price. IsValue PLACES text.now price) }

        // Each fault comes exactly where it is the first that applies.
        ensures format { (result ≡ Err DecimalFault.Format) ↔ ¬ (IsTrue (is_decimal text.now)) }
        ensures too_fine { (result ≡ Err DecimalFault.TooFine)
            ↔ (IsTrue (is_decimal text.now) × ((units : ℤ) → ¬ (IsValue PLACES text.now units))) }
        ensures too_large { (result ≡ Err DecimalFault.TooLarge)
            ↔ ((units : ℤ) × IsValue PLACES text.now units × (price_units units ≡ None)) }

        // Zeros in front and at the end change nothing.
        ensures leading_zeros { IsTrue (is_decimal text.now)
            → (count : ℕ) → price_of (with_leading_zeros count text.now) ≡ result }
        ensures trailing_zeros { IsTrue (is_decimal text.now)
            → (count : ℕ) → price_of (with_trailing_zeros count text.now) ≡ result }
    {
        let (negative, size) = split_sign(text);
        Self::from_size(negative, read_size(size, Self::PLACES as usize))
    }

    // The price of a size with its sign.
    fn from_size(negative: bool, size: Result<u64, DecimalFault>) -> Result<Price, DecimalFault>
        requires { IfOk size (λ units. units < SIZE_LIMIT) }
        ensures { result ≡ within price_units (with_sign negative size) }
    {
        match size {
            Ok(units) if negative => Ok(Price(-(units as i64))),
            Ok(units) => Ok(Price(units as i64)),
            Err(fault) => Err(fault),
        }
    }
}

impl fmt::Display for Price {
    ghost output = { λ price. Some (printed PLACES price) };

    fn fmt<W: fmt::Write>(&self, f: &mut fmt::Formatter<W>) -> fmt::Result
        ensures writes { DisplaysOnOk W.write_str_gives f.old result
            (Some (printed PLACES self.now)) f.new }

        // What is printed is read again as the same number, and no such text is shorter.
        ensures read_again { price_of (printed PLACES self.now) ≡ Ok self.now }
        ensures shortest { IsShortest PLACES self.now (printed PLACES self.now) }
    {
        write_units(f, self.0, Self::PLACES)
    }
}

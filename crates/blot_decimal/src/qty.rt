//! Quantities.
ghost use Rattle.std.specs.Prelude.{◌≡◌, ℕ, ◌^◌, ◌<◌, ◌↔◌, ℤ, pos, ◌*ℤ◌, unsigned_abs, IsTrue, SomeIff, IfOk, Some, Ok};
ghost use Rattle.std.specs.Fmt.{DisplaysOnOk};
ghost use Rattle.blot_decimal.specs.declared.qty.TheConstants.Qty.{PLACES};
ghost use Rattle.blot_decimal.specs.declared.reading.TheConstants.{SIZE_LIMIT};
ghost use Rattle.blot_decimal.specs.Text.{is_decimal, with_leading_zeros, with_trailing_zeros};
ghost use Rattle.blot_decimal.specs.Meaning.{IsValue, with_sign, qty_units, within, qty_of};
ghost use Rattle.blot_decimal.specs.Printed.{printed, IsShortest};

use crate::fault::DecimalFault;
use crate::price::Price;
use crate::printing::write_units;
use crate::reading::{SIZE_LIMIT, read_size, split_sign};
use crate::value::Value;
use std::fmt;
use std::marker::Model;

/// A quantity: a whole number of units of 10^-6, from 0 to 10^16 - 1. A contract sees it as the
/// number of its units. Its text is the shortest exact decimal: no point for a whole number,
/// at least one digit before a point, and after it no zero at the end.
#[derive(Clone, Copy, Debug, PartialEq, Eq, PartialOrd, Ord, Hash)]
pub struct Qty(u64);

impl Model for Qty {
    ghost Value = { ℕ };

    ghost view = { λ qty. qty.0 };

    ghost invariant = { λ qty. qty.0 < SIZE_LIMIT };

    ghost inverse = { λ units. record { 0 = units } };
}

impl Qty {
    /// How many decimals a quantity keeps.
    pub const PLACES: u32 = 6;

    /// The quantity of so many units of 10^-6, or none past the largest, 10^16 - 1.
    pub fn from_units(units: u64) -> Option<Qty>
        ensures { SomeIff result (units < SIZE_LIMIT) units }
    {
        if units < SIZE_LIMIT {
            Some(Qty(units))
        } else {
            None
        }
    }

    /// How many units of 10^-6 it is.
    pub fn units(self) -> u64
        ensures value { result ≡ self }
        ensures range { result < SIZE_LIMIT }
    {
        self.0
    }

    /// Reads a decimal text: the exact number, or the first fault that applies. A quantity below
    /// zero is `TooLarge`; `-0` is 0.
    pub fn read(text: &[u8]) -> Result<Qty, DecimalFault>
        ensures meaning { result ≡ qty_of text.now }
        ensures value { IfOk result (λ qty. IsValue PLACES text.now (pos qty)) }

        // Each fault comes exactly where it is the first that applies.
        ensures format { (result ≡ Err DecimalFault.Format) ↔ ¬ (IsTrue (is_decimal text.now)) }
        ensures too_fine { (result ≡ Err DecimalFault.TooFine)
            ↔ (IsTrue (is_decimal text.now) × ((units : ℤ) → ¬ (IsValue PLACES text.now units))) }
        ensures too_large { (result ≡ Err DecimalFault.TooLarge)
            ↔ ((units : ℤ) × IsValue PLACES text.now units × (qty_units units ≡ None)) }

        // Zeros in front and at the end change nothing.
        ensures leading_zeros { IsTrue (is_decimal text.now)
            → (count : ℕ) → qty_of (with_leading_zeros count text.now) ≡ result }
        ensures trailing_zeros { IsTrue (is_decimal text.now)
            → (count : ℕ) → qty_of (with_trailing_zeros count text.now) ≡ result }
    {
        let (negative, size) = split_sign(text);
        Self::from_size(negative, read_size(size, Self::PLACES as usize))
    }

    // The quantity of a size with its sign: none below zero.
    fn from_size(negative: bool, size: Result<u64, DecimalFault>) -> Result<Qty, DecimalFault>
        requires { IfOk size (λ units. units < SIZE_LIMIT) }
        ensures { result ≡ within qty_units (with_sign negative size) }
    {
        match size {
            Ok(units) if negative && units > 0 => Err(DecimalFault::TooLarge),
            Ok(units) => Ok(Qty(units)),
            Err(fault) => Err(fault),
        }
    }

    /// The value of this quantity at a price, exactly: units of 10^-14, below 10^32 in size.
    pub fn times(self, price: Price) -> Value
        ensures exact { result ≡ pos self *ℤ price }
        ensures range { unsigned_abs result < 10 ^ 32 }
    {
        Value::from_units(i128::from(self.0) * i128::from(price.units()))
    }
}

impl fmt::Display for Qty {
    ghost output = { λ qty. Some (printed PLACES (pos qty)) };

    fn fmt<W: fmt::Write>(&self, f: &mut fmt::Formatter<W>) -> fmt::Result
        ensures writes { DisplaysOnOk W.write_str_gives f.old result
            (Some (printed PLACES (pos self.now))) f.new }

        // What is printed is read again as the same number, and no such text is shorter.
        ensures read_again { qty_of (printed PLACES (pos self.now)) ≡ Ok self.now }
        ensures shortest { IsShortest PLACES (pos self.now) (printed PLACES (pos self.now)) }
    {
        write_units(f, self.0 as i64, Self::PLACES)
    }
}

//! Why a text is no quantity or price.

use std::error::Error;
use std::fmt;

/// Why a text is no quantity or price: the first of these that applies.
#[derive(Clone, Copy, Debug, PartialEq, Eq, PartialOrd, Ord, Hash)]
pub enum DecimalFault {
    /// It is no decimal: an optional `-`, then digits with at most one point, and at least one digit.
    Format = 1,
    /// It has a nonzero digit past the last decimal that is kept.
    TooFine = 2,
    /// It is past the largest number of its kind, or a quantity below zero.
    TooLarge = 3,
}

impl fmt::Display for DecimalFault {
    ghost use Rattle.std.specs.Prelude.{Some};
    ghost use Rattle.blot_decimal.specs.FaultText.{fault_text};

    ghost output = { λ fault. Some (fault_text fault) };

    fn fmt<W: fmt::Write>(&self, f: &mut fmt::Formatter<W>) -> fmt::Result {
        f.write_str(match self {
            DecimalFault::Format => "not a decimal",
            DecimalFault::TooFine => "too many decimals",
            DecimalFault::TooLarge => "out of range",
        })
    }
}

impl Error for DecimalFault {}

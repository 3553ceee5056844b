//! Whole numbers of 128 bits, held as two halves.
ghost use Rattle.std.specs.Prelude.{◌≡◌, Some};
ghost use Rattle.std.specs.Ordering.{int_cmp, int_eq};
ghost use Rattle.std.specs.Cmp.Rules.{comparing};
ghost use Rattle.std.specs.Hash as fed;
ghost use Rattle.std.proofs.Common.{rules};

use std::cmp::Ordering;
use std::fmt;
use std::hash::{Hash, Hasher};
use std::marker::Model;

/// A whole number from -2^127 to 2^127 - 1. Its bits are held in two halves, so what has such a number in it begins at a multiple of 8
/// bytes, and not of 16. A contract sees it as that number.
#[derive(Clone, Copy)]
pub(crate) struct Wide {
    high: u64,
    low: u64,
}

impl Model for Wide {
    ghost use Rattle.std.specs.Prelude.{ℤ};
    ghost use Rattle.blot_decimal.specs.Halves.{of_halves, high_half, low_half, AreHalves, high_of_halves, low_of_halves};

    ghost Value = { ℤ };

    ghost view = { λ wide. of_halves wide.high wide.low };

    ghost invariant = { λ wide. AreHalves wide.high wide.low };

    ghost inverse = { λ units. record { high = high_half units; low = low_half units } };

    ghost inverse_ok = { λ wide holds i. record {
      high = high_of_halves wide.high wide.low holds i;
      low = low_of_halves wide.high wide.low holds i;
    } };
}

impl Wide {
    /// The number of so many units.
    pub(crate) fn from_units(units: i128) -> Wide
        ensures { result ≡ units }
    {
        let bits = units.cast_unsigned();
        Wide {
            high: (bits >> 64) as u64,
            low: (bits % (1 << 64)) as u64,
        }
    }

    /// How many units it is.
    pub(crate) fn units(self) -> i128
        ensures { result ≡ self }
    {
        (u128::from(self.high) * (1 << 64) + u128::from(self.low)).cast_signed()
    }
}

impl PartialEq for Wide {
    ghost eq = { int_eq };

    ghost laws = { Prim.search (comparing, rules) };

    fn eq(&self, other: &Wide) -> bool {
        self.units() == other.units()
    }
}

impl Eq for Wide {
    ghost laws = { Prim.search rules };
}

impl PartialOrd for Wide {
    ghost partial_cmp = { λ a b. Some (int_cmp a b) };

    ghost laws = { Prim.search (comparing, rules) };

    fn partial_cmp(&self, other: &Wide) -> Option<Ordering> {
        Some(self.cmp(other))
    }
}

impl Ord for Wide {
    ghost cmp = { int_cmp };

    ghost total = { Prim.search rules };

    ghost matches_partial_cmp = { Prim.search rules };

    ghost matches_eq = { Prim.search rules };

    fn cmp(&self, other: &Wide) -> Ordering {
        self.units().cmp(&other.units())
    }
}

impl Hash for Wide {
    ghost hash_input = { fed.i128 };

    ghost respects_eq = { Prim.search rules };

    fn hash<H: Hasher>(&self, state: &mut H) {
        self.units().hash(state);
    }
}

impl fmt::Debug for Wide {
    fn fmt<W: fmt::Write>(&self, f: &mut fmt::Formatter<W>) -> fmt::Result {
        fmt::Debug::fmt(&self.units(), f)
    }
}

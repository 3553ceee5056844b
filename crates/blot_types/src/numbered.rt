//! What has a number.
ghost use Rattle.std.specs.Prelude.{◌≡◌};
ghost use Rattle.blot_types.specs.Lesser.{lesser};

use crate::Instruction;

/// What has a number, by which it is found in a list: an entry's own, or that of the entry that it comes from.
pub trait Numbered {
    ghost use Rattle.std.specs.Prelude.{◌≡◌, ℕ};

    ghost number_of: { Self → ℕ };

    /// Its number.
    fn number(&self) -> u64
        ensures { result ≡ number_of self.now };
}

impl Numbered for Instruction {
    ghost use Rattle.std.specs.Prelude.{◌≡◌, ℕ};

    ghost number_of = { λ instruction. instruction.number };

    fn number(&self) -> u64 {
        self.number
    }
}

/// The lesser of two numbers, of which there may be one or none.
pub fn lesser(a: Option<u64>, b: Option<u64>) -> Option<u64>
    ensures { result ≡ lesser a b }
{
    match (a, b) {
        (None, number) | (number, None) => number,
        (Some(a), Some(b)) => Some(a.min(b)),
    }
}

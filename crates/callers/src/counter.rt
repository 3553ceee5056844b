//! A counter: each command adds to a total.

use blot_command::Undoable;

/// The greatest total.
pub const TOTAL_MAX: u64 = 1_000;

/// Adds an amount to the total.
#[derive(Clone, Copy, Debug, PartialEq, Eq)]
pub struct Add {
    pub amount: u64,
}

/// Why an amount isn't added.
#[derive(Clone, Copy, Debug, PartialEq, Eq)]
pub enum AddFault {
    /// The total would pass `TOTAL_MAX`.
    TooLarge,
    /// Memory ran out: it never does.
    NoMemory,
}

impl Undoable for Add {
    ghost use Rattle.std.specs.Prelude.{ℕ};
    ghost use Rattle.callers.specs.Counter.{add_meaning, add_lawful};

    type State = u64;

    type Inverse = u64;

    type Refusal = AddFault;

    ghost Live = { ℕ };

    ghost meaning = { add_meaning };

    ghost lawful = { add_lawful };

    fn apply(self, total: &mut u64, _number: u64) -> Result<u64, (Add, AddFault)> {
        match total.checked_add(self.amount) {
            Some(sum) if sum <= TOTAL_MAX => {
                *total = sum;
                Ok(self.amount)
            }
            _ => Err((self, AddFault::TooLarge)),
        }
    }

    fn revert(amount: u64, total: &mut u64) -> Add {
        *total -= amount;
        Add { amount }
    }
}

//! An entry taken out of the book.

use blot_command::{ApplyFault, BoxedEntry, Tables, Undoable, withdraw};

/// Takes the entry of this number out of the live list, whatever came later, exactly where the list without it is legal. Undone, the
/// entry stands again at its place, under its number. No memory is taken. This project's rule.
#[derive(Clone, Copy, Debug, PartialEq, Eq)]
pub struct Withdraw(pub u64);

impl Undoable for Withdraw {
    ghost use Rattle.std.specs.Prelude.{List};
    ghost use Rattle.blot_types.specs.declared.command.Entry.{Entry};
    ghost use Rattle.blot_withdraw.specs.Withdrawing.{withdraw_meaning, withdraw_lawful};

    type State = Tables;

    type Inverse = BoxedEntry;

    type Refusal = ApplyFault;

    ghost Live = { List Entry };

    ghost meaning = { withdraw_meaning };

    ghost lawful = { withdraw_lawful };

    fn apply(self, tables: &mut Tables, number: u64) -> Result<BoxedEntry, (Withdraw, ApplyFault)> {
        // No entry bears the number of the step.
        let _ = number;
        match withdraw(tables, self.0) {
            Ok(entry) => Ok(entry),
            Err(refused) => Err((self, ApplyFault::Refused(refused))),
        }
    }

    fn revert(entry: BoxedEntry, tables: &mut Tables) -> Withdraw {
        let number = entry.as_entry().number;
        tables.un_lift(entry);
        Withdraw(number)
    }
}

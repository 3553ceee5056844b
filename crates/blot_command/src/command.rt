//! Commands of any kind on the book.
ghost use Rattle.std.specs.Prelude.{◌≡◌};

use crate::entering::{enter, leave};
use crate::withdrawing::withdraw;
use crate::{ApplyFault, Inverse, Tables, Undoable};
use blot_types::Command;

impl Undoable for Command {
    ghost use Rattle.std.specs.Prelude.{List};
    ghost use Rattle.blot_types.specs.declared.command.Entry.{Entry};
    ghost use Rattle.blot_command.specs.Meanings.{command_meaning};
    ghost use Rattle.blot_command.specs.Law.{command_lawful};

    type State = Tables;

    type Inverse = Inverse;

    type Refusal = ApplyFault;

    ghost Live = { List Entry };

    ghost meaning = { command_meaning };

    ghost lawful = { command_lawful };

    fn apply(self, tables: &mut Tables, number: u64) -> Result<Inverse, (Command, ApplyFault)> {
        let Some(taken) = self.withdrawn() else {
            return match enter(tables, self, number) {
                Ok(number) => Ok(Inverse::Number(number)),
                Err(back) => Err(back),
            };
        };
        match withdraw(tables, taken) {
            Ok(entry) => Ok(Inverse::Taken(entry)),
            Err(refused) => Err((self, ApplyFault::Refused(refused))),
        }
    }

    fn revert(inverse: Inverse, tables: &mut Tables) -> Command {
        match inverse {
            Inverse::Number(number) => leave(tables, number),
            Inverse::Taken(entry) => {
                let number = entry.as_entry().number;
                tables.un_lift(entry);
                Command::Withdraw(number)
            }
        }
    }
}

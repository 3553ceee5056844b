//! Busts on the book.
ghost use Rattle.std.specs.Prelude.{◌≡◌, Some, IsSome};
ghost use Rattle.blot_command.specs.Kinds.{bust_of};

use crate::entering::{enter, leave};
use crate::{ApplyFault, Tables, Undoable};
use blot_types::{Bust, Command};

impl Undoable for Bust {
    ghost use Rattle.std.specs.Prelude.{List};
    ghost use Rattle.blot_types.specs.declared.command.Entry.{Entry};
    ghost use Rattle.blot_command.specs.Kinds.{bust_meaning, bust_lawful};

    type State = Tables;

    type Inverse = u64;

    type Refusal = ApplyFault;

    ghost Live = { List Entry };

    ghost meaning = { bust_meaning };

    ghost lawful = { bust_lawful };

    fn apply(self, tables: &mut Tables, number: u64) -> Result<u64, (Bust, ApplyFault)> {
        match enter(tables, Command::Bust(self), number) {
            Ok(inverse) => Ok(inverse),
            Err((back, fault)) => Err((into_bust(back), fault)),
        }
    }

    fn revert(number: u64, tables: &mut Tables) -> Bust {
        into_bust(leave(tables, number))
    }
}

// The bust that a command is.
fn into_bust(command: Command) -> Bust
    requires { IsSome (bust_of command) }
    ensures { bust_of command ≡ Some result }
{
    match command {
        Command::Bust(bust) => bust,
        Command::Trade(_)
        | Command::Correct(_)
        | Command::AllocNew(_)
        | Command::AllocReplace(_)
        | Command::AllocCancel(_)
        | Command::Withdraw(_) => unreachable!(),
    }
}

//! Corrections on the book.
ghost use Rattle.std.specs.Prelude.{◌≡◌, Some, IsSome};
ghost use Rattle.blot_command.specs.Kinds.{correct_of};

use crate::entering::{enter, leave};
use crate::{ApplyFault, Tables, Undoable};
use blot_types::{Command, Correct};

impl Undoable for Correct {
    ghost use Rattle.std.specs.Prelude.{List};
    ghost use Rattle.blot_types.specs.declared.command.Entry.{Entry};
    ghost use Rattle.blot_command.specs.Kinds.{correct_meaning, correct_lawful};

    type State = Tables;

    type Inverse = u64;

    type Refusal = ApplyFault;

    ghost Live = { List Entry };

    ghost meaning = { correct_meaning };

    ghost lawful = { correct_lawful };

    fn apply(self, tables: &mut Tables, number: u64) -> Result<u64, (Correct, ApplyFault)> {
        match enter(tables, Command::Correct(self), number) {
            Ok(inverse) => Ok(inverse),
            Err((back, fault)) => Err((into_correct(back), fault)),
        }
    }

    fn revert(number: u64, tables: &mut Tables) -> Correct {
        into_correct(leave(tables, number))
    }
}

// The correction that a command is.
fn into_correct(command: Command) -> Correct
    requires { IsSome (correct_of command) }
    ensures { correct_of command ≡ Some result }
{
    match command {
        Command::Correct(correct) => correct,
        Command::Trade(_)
        | Command::Bust(_)
        | Command::AllocNew(_)
        | Command::AllocReplace(_)
        | Command::AllocCancel(_)
        | Command::Withdraw(_) => unreachable!(),
    }
}

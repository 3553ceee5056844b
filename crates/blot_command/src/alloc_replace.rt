//! Allocations in the place of others on the book.
ghost use Rattle.std.specs.Prelude.{◌≡◌, Some, IsSome};
ghost use Rattle.blot_command.specs.Kinds.{alloc_replace_of};

use crate::entering::{enter, leave};
use crate::{ApplyFault, Tables, Undoable};
use blot_types::{AllocReplace, Command};

impl Undoable for AllocReplace {
    ghost use Rattle.std.specs.Prelude.{List};
    ghost use Rattle.blot_types.specs.declared.command.Entry.{Entry};
    ghost use Rattle.blot_command.specs.Kinds.{alloc_replace_meaning, alloc_replace_lawful};

    type State = Tables;

    type Inverse = u64;

    type Refusal = ApplyFault;

    ghost Live = { List Entry };

    ghost meaning = { alloc_replace_meaning };

    ghost lawful = { alloc_replace_lawful };

    fn apply(self, tables: &mut Tables, number: u64) -> Result<u64, (AllocReplace, ApplyFault)> {
        match enter(tables, Command::AllocReplace(self), number) {
            Ok(inverse) => Ok(inverse),
            Err((back, fault)) => Err((into_alloc_replace(back), fault)),
        }
    }

    fn revert(number: u64, tables: &mut Tables) -> AllocReplace {
        into_alloc_replace(leave(tables, number))
    }
}

// The replacement that a command is.
fn into_alloc_replace(command: Command) -> AllocReplace
    requires { IsSome (alloc_replace_of command) }
    ensures { alloc_replace_of command ≡ Some result }
{
    match command {
        Command::AllocReplace(replacement) => replacement,
        Command::Trade(_)
        | Command::Correct(_)
        | Command::Bust(_)
        | Command::AllocNew(_)
        | Command::AllocCancel(_)
        | Command::Withdraw(_) => unreachable!(),
    }
}

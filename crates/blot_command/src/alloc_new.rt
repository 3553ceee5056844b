//! Allocations on the book.
ghost use Rattle.std.specs.Prelude.{◌≡◌, Some, IsSome};
ghost use Rattle.blot_command.specs.Kinds.{alloc_new_of};

use crate::entering::{enter, leave};
use crate::{ApplyFault, Tables, Undoable};
use blot_types::{AllocNew, Command};

impl Undoable for AllocNew {
    ghost use Rattle.std.specs.Prelude.{List};
    ghost use Rattle.blot_types.specs.declared.command.Entry.{Entry};
    ghost use Rattle.blot_command.specs.Kinds.{alloc_new_meaning, alloc_new_lawful};

    type State = Tables;

    type Inverse = u64;

    type Refusal = ApplyFault;

    ghost Live = { List Entry };

    ghost meaning = { alloc_new_meaning };

    ghost lawful = { alloc_new_lawful };

    fn apply(self, tables: &mut Tables, number: u64) -> Result<u64, (AllocNew, ApplyFault)> {
        match enter(tables, Command::AllocNew(self), number) {
            Ok(inverse) => Ok(inverse),
            Err((back, fault)) => Err((into_alloc_new(back), fault)),
        }
    }

    fn revert(number: u64, tables: &mut Tables) -> AllocNew {
        into_alloc_new(leave(tables, number))
    }
}

// The allocation that a command is.
fn into_alloc_new(command: Command) -> AllocNew
    requires { IsSome (alloc_new_of command) }
    ensures { alloc_new_of command ≡ Some result }
{
    match command {
        Command::AllocNew(allocation) => allocation,
        Command::Trade(_)
        | Command::Correct(_)
        | Command::Bust(_)
        | Command::AllocReplace(_)
        | Command::AllocCancel(_)
        | Command::Withdraw(_) => unreachable!(),
    }
}

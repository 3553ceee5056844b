//! Ends of allocations on the book.
ghost use Rattle.std.specs.Prelude.{◌≡◌, Some, IsSome};
ghost use Rattle.blot_command.specs.Kinds.{alloc_cancel_of};

use crate::entering::{enter, leave};
use crate::{ApplyFault, Tables, Undoable};
use blot_types::{AllocCancel, Command};

impl Undoable for AllocCancel {
    ghost use Rattle.std.specs.Prelude.{List};
    ghost use Rattle.blot_types.specs.declared.command.Entry.{Entry};
    ghost use Rattle.blot_command.specs.Kinds.{alloc_cancel_meaning, alloc_cancel_lawful};

    type State = Tables;

    type Inverse = u64;

    type Refusal = ApplyFault;

    ghost Live = { List Entry };

    ghost meaning = { alloc_cancel_meaning };

    ghost lawful = { alloc_cancel_lawful };

    fn apply(self, tables: &mut Tables, number: u64) -> Result<u64, (AllocCancel, ApplyFault)> {
        match enter(tables, Command::AllocCancel(self), number) {
            Ok(inverse) => Ok(inverse),
            Err((back, fault)) => Err((into_alloc_cancel(back), fault)),
        }
    }

    fn revert(number: u64, tables: &mut Tables) -> AllocCancel {
        into_alloc_cancel(leave(tables, number))
    }
}

// The cancel that a command is.
fn into_alloc_cancel(command: Command) -> AllocCancel
    requires { IsSome (alloc_cancel_of command) }
    ensures { alloc_cancel_of command ≡ Some result }
{
    match command {
        Command::AllocCancel(cancel) => cancel,
        Command::Trade(_)
        | Command::Correct(_)
        | Command::Bust(_)
        | Command::AllocNew(_)
        | Command::AllocReplace(_)
        | Command::Withdraw(_) => unreachable!(),
    }
}

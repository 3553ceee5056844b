//! Trades on the book.
ghost use Rattle.std.specs.Prelude.{◌≡◌, Some, IsSome};
ghost use Rattle.blot_command.specs.Kinds.{trade_of};

use crate::entering::{enter, leave};
use crate::{ApplyFault, Tables, Undoable};
use blot_types::{Command, Trade};

impl Undoable for Trade {
    ghost use Rattle.std.specs.Prelude.{List};
    ghost use Rattle.blot_types.specs.declared.command.Entry.{Entry};
    ghost use Rattle.blot_command.specs.Kinds.{trade_meaning, trade_lawful};

    type State = Tables;

    type Inverse = u64;

    type Refusal = ApplyFault;

    ghost Live = { List Entry };

    ghost meaning = { trade_meaning };

    ghost lawful = { trade_lawful };

    fn apply(self, tables: &mut Tables, number: u64) -> Result<u64, (Trade, ApplyFault)> {
        match enter(tables, Command::Trade(self), number) {
            Ok(inverse) => Ok(inverse),
            Err((back, fault)) => Err((into_trade(back), fault)),
        }
    }

    fn revert(number: u64, tables: &mut Tables) -> Trade {
        into_trade(leave(tables, number))
    }
}

// The trade that a command is.
fn into_trade(command: Command) -> Trade
    requires { IsSome (trade_of command) }
    ensures { trade_of command ≡ Some result }
{
    match command {
        Command::Trade(trade) => trade,
        Command::Correct(_)
        | Command::Bust(_)
        | Command::AllocNew(_)
        | Command::AllocReplace(_)
        | Command::AllocCancel(_)
        | Command::Withdraw(_) => unreachable!(),
    }
}

//! A command on the heap.
ghost use Rattle.std.specs.Prelude.{◌≡◌, IfOk, IsOk, IsSome};
ghost use Rattle.blot_types.specs.declared.command.Command.TheVariants.{Withdraw};
ghost use Rattle.blot_types.specs.Refusals.{withdrawn_by};

use crate::entering::{enter_boxed, leave_boxed};
use crate::withdrawing::withdraw;
use crate::{ApplyFault, BoxedEntry, Inverse, Tables, Undoable};
use blot_types::{Command, Entry};
use std::alloc::{AllocError as NoMemory, Global};
use std::marker::Model;

/// A command on the heap, so that it moves as a pointer does, and becomes an entry of the book where it is. A contract sees it as
/// the command.
#[derive(Drop)]
pub struct BoxedCommand {
    pub(crate) effect: Effect,
}

/// A command that is an entry, or a withdrawal, which is short enough to need no heap.
#[derive(Drop)]
pub(crate) enum Effect {
    /// The number of the entry says nothing yet.
    Enters(BoxedEntry),
    Withdraws(u64),
}

impl Model for BoxedCommand {
    ghost use Rattle.blot_types.specs.declared.command.Command.{Command};
    ghost use Rattle.blot_command.specs.Boxed.{command_in, IsEffect};

    ghost Value = { Command };

    ghost view = { λ boxed. command_in boxed.effect };

    ghost invariant = { λ boxed. IsEffect boxed.effect };
}

impl BoxedCommand {
    /// A copy of a command, on the heap. An error is out of memory. A Withdraw needs none.
    pub fn copy_of(alloc: Global, command: &Command) -> Result<BoxedCommand, NoMemory>
        ensures copy { IfOk result (λ boxed. boxed ≡ command.now) }
        ensures withdrawal { IsSome (withdrawn_by command.now) → IsOk result }
    {
        if let Some(number) = command.withdrawn() {
            return Ok(BoxedCommand::of_withdrawal(number));
        }
        let command = command.try_copy(alloc)?;
        match BoxedEntry::new(alloc, Entry { number: 0, command }) {
            Ok(entry) => Ok(BoxedCommand {
                effect: Effect::Enters(entry),
            }),
            Err(back) => {
                drop(back);
                Err(NoMemory)
            }
        }
    }

    /// The Withdraw of a number.
    pub(crate) fn of_withdrawal(number: u64) -> BoxedCommand
        ensures { result ≡ Withdraw number }
    {
        BoxedCommand {
            effect: Effect::Withdraws(number),
        }
    }

    /// The command of an entry, which stays where it is.
    pub(crate) fn of_entry(entry: BoxedEntry) -> BoxedCommand
        ensures { result ≡ entry.command }
    {
        match entry.as_entry().command.withdrawn() {
            Some(number) => {
                drop(entry);
                BoxedCommand::of_withdrawal(number)
            }
            None => BoxedCommand {
                effect: Effect::Enters(entry),
            },
        }
    }
}

/// The same as of a `Command`, without a copy of it.
impl Undoable for BoxedCommand {
    ghost use Rattle.std.specs.Prelude.{List};
    ghost use Rattle.blot_types.specs.declared.command.Entry.{Entry};
    ghost use Rattle.blot_command.specs.Meanings.{command_meaning};
    ghost use Rattle.blot_command.specs.Law.{command_lawful};

    type State = Tables;

    type Inverse = Inverse;

    type Refusal = ApplyFault;

    ghost Live = { List Entry };

    ghost meaning = { command_meaning };

    ghost lawful = { command_lawful };

    fn apply(
        self,
        tables: &mut Tables,
        number: u64,
    ) -> Result<Inverse, (BoxedCommand, ApplyFault)> {
        match self.effect {
            Effect::Enters(entry) => match enter_boxed(tables, entry.renumbered(number)) {
                Ok(number) => Ok(Inverse::Number(number)),
                Err((back, fault)) => Err((BoxedCommand::of_entry(back), fault)),
            },
            Effect::Withdraws(taken) => match withdraw(tables, taken) {
                Ok(entry) => Ok(Inverse::Taken(entry)),
                Err(refused) => Err((
                    BoxedCommand::of_withdrawal(taken),
                    ApplyFault::Refused(refused),
                )),
            },
        }
    }

    fn revert(inverse: Inverse, tables: &mut Tables) -> BoxedCommand {
        match inverse {
            Inverse::Number(number) => BoxedCommand::of_entry(leave_boxed(tables, number)),
            Inverse::Taken(entry) => {
                let number = entry.as_entry().number;
                tables.un_lift(entry);
                BoxedCommand::of_withdrawal(number)
            }
        }
    }
}

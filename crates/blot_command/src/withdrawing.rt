//! An entry taken out of the middle of the book.
ghost use Rattle.std.specs.Prelude.{◌≡◌, find, Some, None, OnErr, OnOk, IfOk, IfErr, IsTrue};
ghost use Rattle.blot_types.specs.Legal.{is_book, withdrawal_refusal};
ghost use Rattle.blot_types.specs.Withdrawal.{IsPutBack};
ghost use Rattle.blot_command.specs.Book.{has_number};
ghost use Rattle.blot_command.specs.Withdrawing.{lifted, CanReturn};

use crate::{BoxedEntry, Tables};
use blot_types::Refused;

/// Takes the entry of a number out of the book, whatever came later, or says why that is refused: no live entry has the number, or a
/// later one needs it. No memory is taken. This project's rule.
pub fn withdraw(tables: &mut Tables, number: u64) -> Result<BoxedEntry, Refused>
    ensures accepted { OnOk result (withdrawal_refusal tables.old.list number ≡ None) }
    ensures entry { IfOk result (λ entry. find (has_number number) tables.old.list ≡ Some entry) }
    ensures lifted { IfOk result (λ entry. tables.new ≡ lifted entry tables.old) }
    ensures kept { IfOk result (λ entry. CanReturn entry tables.new) }
    ensures refused { IfErr result (λ refused. withdrawal_refusal tables.old.list number ≡ Some refused) }
    ensures err { OnErr result (tables.new ≡ tables.old) }
    ensures book { IsTrue (is_book tables.old.list) }

    // An entry of the list that is taken out and put back stands where it stood.
    ensures back { IsPutBack tables.old.list }
{
    if tables.entry(number).is_none() {
        return Err(Refused::NotLive(number));
    }
    match tables.blocked(number) {
        Some(first) => Err(Refused::Needed(first)),
        None => Ok(tables.lift(number)),
    }
}

//! Which entry of the book blocks a withdrawal.
ghost use Rattle.std.specs.Prelude.{◌≡◌, find, IsSome, IsTrue};
ghost use Rattle.blot_types.specs.Legal.{is_book, least_needing};
ghost use Rattle.blot_types.specs.Withdrawal.{IsBustUnneeded, IsNeededFirst, IsWithdrawn};
ghost use Rattle.blot_command.specs.Book.{has_number};

use blot_command::Tables;

/// The number of the entry that blocks the withdrawal of the one of a number, which is live: the first that needs it, the least
/// above it at which the entries up to it, without that one, aren't legal. None where all later entries can do without it, so
/// that it may be withdrawn. No memory is taken. This project's rule.
pub fn blocked_by(tables: &Tables, number: u64) -> Option<u64>
    requires live { IsSome (find (has_number number) tables.now.list) }
    ensures blocked { result ≡ least_needing tables.now.list number }

    // In plain words: it is the first entry that uses something of the one withdrawn; nothing needs a Bust; and without
    // an entry the list is a book exactly where nothing needs it.
    ensures first { IsNeededFirst tables.now.list }
    ensures bust { IsBustUnneeded tables.now.list }
    ensures withdrawn { IsWithdrawn tables.now.list }
    ensures book { IsTrue (is_book tables.now.list) }
{
    tables.blocked(number)
}

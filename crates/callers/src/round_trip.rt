//! Steps undone and redone, of any type of command.
ghost use Rattle.std.specs.Prelude.{◌≡◌, ◌≤◌, length, OnOk};
ghost use Rattle.blot_undo.specs.Book.{book_of};

use blot_command::Undoable;
use blot_undo::Steps;
use std::alloc::AllocError as NoMemory;

/// As many steps as are counted, undone and redone, leave the book as it was: a caller knows this from the contracts
/// of the stack alone. Where memory runs out, some stay undone.
pub fn there_and_back<C: Undoable>(steps: &mut Steps<C>, count: usize) -> Result<(), NoMemory>
    requires { count ≤ length steps.old.done }
    ensures { OnOk result (book_of C.meaning steps.new ≡ book_of C.meaning steps.old) }
{
    // It says that the round trip leads back.
    steps.done();
    steps.rewind(count);
    for _ in 0..count {
        steps.redo()?;
    }
    Ok(())
}

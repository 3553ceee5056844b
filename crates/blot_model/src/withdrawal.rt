//! Which entry of a list is the first that can't do without another.
ghost use Rattle.std.specs.Prelude.{◌≡◌, IsTrue, IfOk};
ghost use Rattle.blot_types.specs.Legal.{is_book, without, up_to, fails_at, least_needing};
ghost use Rattle.blot_types.specs.Withdrawal.{IsBustUnneeded, IsNeededFirst, IsWithdrawn};

use crate::refusals::legal;
use blot_types::Entry;
use std::alloc::{AllocError as NoMemory, Global};

/// The least number above this one at which the entries numbered up to it, without the entry of this one, aren't
/// legal; none where all later entries can do without it. Own profile.
pub fn blocked_of(alloc: Global, list: &[Entry], number: u64) -> Result<Option<u64>, NoMemory>
    requires { IsTrue (is_book list.now) }
    ensures blocked { IfOk result (λ blocked. blocked ≡ least_needing list.now number) }

    // In plain words: it is the first entry that uses something of the one withdrawn; nothing needs a Bust; and without
    // an entry the list is a book exactly where nothing needs it.
    ensures first { IsNeededFirst list.now }
    ensures bust { IsBustUnneeded list.now }
    ensures withdrawn { IsWithdrawn list.now }
{
    first_failing(alloc, list, number)
}

/// The first number at which the entries up to it fail without the withdrawn one.
pub(crate) fn first_failing(
    alloc: Global,
    list: &[Entry],
    withdrawn: u64,
) -> Result<Option<u64>, NoMemory>
    ensures { IfOk result (λ number. number ≡ least_needing list.now withdrawn) }
{
    for entry in list {
        if fails_at(alloc, list, withdrawn, entry.number)? {
            return Ok(Some(entry.number));
        }
    }
    Ok(None)
}

// Whether a number is above that of a withdrawn entry, and the entries up to it aren't legal without that one.
fn fails_at(alloc: Global, list: &[Entry], withdrawn: u64, number: u64) -> Result<bool, NoMemory>
    ensures { IfOk result (λ fails. fails ≡ fails_at list.now withdrawn number) }
{
    if number <= withdrawn {
        return Ok(false);
    }
    let rest = without_up_to(alloc, list, withdrawn, number)?;
    let is_legal = legal(alloc, &rest)?;
    Ok(!is_legal)
}

// The entries up to a number, without the withdrawn one, copied.
fn without_up_to(
    alloc: Global,
    list: &[Entry],
    withdrawn: u64,
    number: u64,
) -> Result<Vec<Entry>, NoMemory>
    ensures { IfOk result (λ rest. rest.items ≡ without withdrawn (up_to number list.now)) }
{
    let mut rest = Vec::new(alloc);
    for entry in list {
        if entry.number <= number && entry.number != withdrawn {
            let copy = entry.try_copy(alloc)?;
            rest.push(copy)?;
        }
    }
    Ok(rest)
}

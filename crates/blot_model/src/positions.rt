//! The positions of accounts.
ghost use Rattle.std.specs.Prelude.{◌≡◌, ◌*◌, ◌^◌, [], ◌∷◌, false, IfOk, IfSome, IsTrue};
ghost use Rattle.std.specs.Option.{option_map_or};
ghost use Rattle.blot_types.specs.Bounds.{BOOK_FILLED, BOOK_MOVED};
ghost use Rattle.blot_types.specs.Allocations.{allocation_of};
ghost use Rattle.blot_types.specs.Keys.{is_among};
ghost use Rattle.blot_types.specs.Laws.{IsConserving};
ghost use Rattle.blot_types.specs.Legal.{is_book};
ghost use Rattle.blot_types.specs.Position.{moves_of, position_of};
ghost use Rattle.blot_types.specs.Survivors.{root_of};
ghost use Rattle.blot_model.specs.Sums.{sums_at, survivor_parts, moves_by, moves_if_live, units_of, IsBalanced, AreUpTo};

use crate::allocations::{ended_by, named_roots};
use crate::chains::root_of;
use crate::instructions::instructions;
use crate::parts::{joined, moves_of_line, shown};
use crate::surviving::survivors;
use blot_types::{
    AllocKey, Command, Entry, ExecKey, Instruction, Part, PositionLine, Terms, Text64,
};
use std::alloc::{AllocError as NoMemory, Global};

/// The position of an account in a symbol, or none where no part is of it: what the survivors that sit there add,
/// and what the lines of live allocations move there from the house account or take from it. Over all accounts
/// the positions in a symbol come to what its survivors do: allocations make and lose nothing.
pub fn position_of(
    alloc: Global,
    list: &[Entry],
    account: &Text64,
    symbol: &Text64,
) -> Result<Option<PositionLine>, NoMemory>
    requires { IsTrue (is_book list.now) }
    ensures exact { IfOk result (λ line. line ≡ position_of list.now account.now symbol.now) }
    ensures conserving { IsConserving list.now }
{
    let stood = survivors_at(alloc, list, account, symbol)?;
    let instructions = instructions(alloc, list)?;
    let moved = moves_at(&instructions, list, account, symbol);
    Ok(joined(stood, moved))
}

// What the survivors add to a position.
fn survivors_at(
    alloc: Global,
    list: &[Entry],
    account: &Text64,
    symbol: &Text64,
) -> Result<Option<PositionLine>, NoMemory>
    requires { IsTrue (is_book list.now) }
    ensures sums { IfOk result (λ sums. sums ≡ sums_at account.now symbol.now (survivor_parts list.now)) }
    ensures few { IfOk result (AreUpTo BOOK_FILLED) }
{
    let named = named_roots(alloc, list)?;
    let mut sums = None;
    for version in &survivors(alloc, list)? {
        let part = Part::of_fill(is_named(list, &named, &version.key), &version.fill);
        sums = joined(sums, shown(&part, account, symbol));
    }
    Ok(sums)
}

// Whether the chain of a key is one of those that are named.
fn is_named(list: &[Entry], named: &[ExecKey], key: &ExecKey) -> bool
    ensures { result ≡ option_map_or (is_among named.now) (root_of list.now key.now) false }
{
    match root_of(list, key) {
        None => false,
        Some(root) => is_among(named, &root),
    }
}

// Whether a root is one of these.
fn is_among(roots: &[ExecKey], root: &ExecKey) -> bool
    ensures { result ≡ is_among roots.now root.now }
{
    roots.iter().any(|other| other == root)
}

// What the lines of live allocations add to a position.
fn moves_at(
    instructions: &[Instruction],
    list: &[Entry],
    account: &Text64,
    symbol: &Text64,
) -> Option<PositionLine>
    requires { IsTrue (is_book list.now) }
    ensures sums { result ≡ sums_at account.now symbol.now (moves_by instructions.now list.now) }
    ensures few { AreUpTo BOOK_MOVED result }
{
    let mut sums = None;
    for entry in list {
        sums = joined(sums, moves_of_entry(instructions, entry, account, symbol));
    }
    sums
}

// What the lines of an entry's allocation add to a position, if it brings one that is live.
fn moves_of_entry(
    instructions: &[Instruction],
    entry: &Entry,
    account: &Text64,
    symbol: &Text64,
) -> Option<PositionLine>
    requires { IfSome (allocation_of entry.now.command) (λ allocation. IsBalanced allocation.terms) }
    ensures sums { result ≡ sums_at account.now symbol.now (moves_by instructions.now (entry.now ∷ [])) }
    ensures few { AreUpTo (2 * 10 ^ 16) result }
{
    match &entry.command {
        Command::AllocNew(new) => {
            live_moves(instructions, &new.key, &new.terms, account, symbol)
        }
        Command::AllocReplace(replace) => {
            live_moves(instructions, &replace.key, &replace.terms, account, symbol)
        }
        Command::Trade(_)
        | Command::Correct(_)
        | Command::Bust(_)
        | Command::AllocCancel(_)
        | Command::Withdraw(_) => None,
    }
}

// What the lines of an allocation add to a position, if it is live.
fn live_moves(
    instructions: &[Instruction],
    key: &AllocKey,
    terms: &Terms,
    account: &Text64,
    symbol: &Text64,
) -> Option<PositionLine>
    requires { IsBalanced terms.now }
    ensures sums { result ≡ sums_at account.now symbol.now (moves_if_live instructions.now key.now terms.now) }
    ensures few { AreUpTo (2 * 10 ^ 16) result }
{
    if ended_by(instructions, key).is_some() {
        return None;
    }
    let _block = terms.block.units();
    moves_of(terms, account, symbol)
}

// What the lines of terms add to a position.
fn moves_of(terms: &Terms, account: &Text64, symbol: &Text64) -> Option<PositionLine>
    ensures sums { result ≡ sums_at account.now symbol.now (moves_of terms.now) }
    ensures few { AreUpTo (2 * units_of terms.now.lines) result }
{
    let mut sums = None;
    for line in terms.lines.as_slice() {
        sums = joined(sums, moves_of_line(terms, line, account, symbol));
    }
    sums
}

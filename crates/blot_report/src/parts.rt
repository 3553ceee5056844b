//! What the executions and the allocations of a day add to the positions.
ghost use Rattle.std.specs.Prelude.{◌≡◌, ◌≤◌, [], ◌++◌, length, All, IfOk, OnOk};
ghost use Rattle.blot_command.specs.Standings.{standings_of};
ghost use Rattle.blot_types.specs.Position.{moves_of, IsSmall, TermsFit};
ghost use Rattle.blot_position.specs.Positions.{sums_at};
ghost use Rattle.blot_report.specs.Day.{day_parts_of};
ghost use Rattle.blot_report.specs.Standings.{AreTold, between, entries_in, parts_among, parts_between};
ghost use Rattle.blot_report.specs.Sums.{AddsSums, IsOfParts, LeavesHalf, MadeOf, ShowsParts};

use crate::standing::{part_on, terms_on, told_at};
use blot_command::{Reported, Standing, Told};
use blot_position::Positions;
use blot_time::Day;
use blot_types::{Part, Terms};
use std::alloc::{AllocError as NoMemory, Global};
use std::thread::{Threads, join};

/// The positions of a day: what its executions that stand add, and then what the lines of its live allocations move. An error is out
/// of memory.
pub(crate) fn positions_on(
    alloc: Global,
    told: &[Told],
    day: &Option<Day>,
) -> Result<Positions, NoMemory>
    requires { AreTold told.now }
    ensures { IfOk result (ShowsParts (day_parts_of (entries_in told.now) day.now)) }
{
    positions_between(alloc, told, day, 0, told.len())
}

/// The same of a book by its standings, where each half of the entries is a thread's.
pub(crate) fn positions_in_halves<R: Threads + Sync, B: Reported + Sync>(
    rt: &R,
    alloc: Global,
    book: &B,
    standings: &[Standing],
    day: &Option<Day>,
) -> Result<Positions, NoMemory>
    requires { standings.now ≡ standings_of (B.list_of book.now) }
    ensures { IfOk result (ShowsParts (day_parts_of (B.list_of book.now) day.now)) }
{
    let after = standings.len();
    let middle = after / 2;
    let (first, second) = join(
        rt,
        || -> Result<Positions, NoMemory>
            requires { (standings.now ≡ standings_of (B.list_of book.now)) × (middle ≤ length standings.now) }
            ensures { IfOk result (IsOfParts (parts_between (B.list_of book.entry.now) day.entry.now 0 middle)) }
        { positions_of(alloc, book, standings, day, 0, middle) },
        || -> Result<Positions, NoMemory>
            requires { (standings.now ≡ standings_of (B.list_of book.now)) × (middle ≤ after) × (after ≤ length standings.now) }
            ensures { IfOk result (IsOfParts (parts_between (B.list_of book.entry.now) day.entry.now middle after)) }
        { positions_of(alloc, book, standings, day, middle, after) },
    );
    let mut positions = first?;
    let others = second?;
    add_positions(&mut positions, alloc, &others)?;
    Ok(positions)
}

// The positions of a book's entries from one place to before another.
fn positions_of<B: Reported>(
    alloc: Global,
    book: &B,
    standings: &[Standing],
    day: &Option<Day>,
    first: usize,
    after: usize,
) -> Result<Positions, NoMemory>
    requires standings { standings.now ≡ standings_of (B.list_of book.now) }
    requires rising { first ≤ after }
    requires within { after ≤ length standings.now }
    ensures { IfOk result (IsOfParts (parts_between (B.list_of book.now) day.now first after)) }
{
    let told = book.told(alloc, standings)?;
    positions_between(alloc, &told, day, first, after)
}

// The positions of the entries from one place to before another, by what all of them come to.
fn positions_between(
    alloc: Global,
    told: &[Told],
    day: &Option<Day>,
    first: usize,
    after: usize,
) -> Result<Positions, NoMemory>
    requires told { AreTold told.now }
    requires rising { first ≤ after }
    requires within { after ≤ length (entries_in told.now) }
    ensures { IfOk result (IsOfParts (parts_between (entries_in told.now) day.now first after)) }
{
    let mut positions = Positions::new(alloc);
    add_fills(&mut positions, told, day, first, after)?;
    add_moves(&mut positions, alloc, told, day, first, after)?;
    Ok(positions)
}

// Adds what the executions among these entries that stand add, to positions without a part.
fn add_fills(
    positions: &mut Positions,
    told: &[Told],
    day: &Option<Day>,
    first: usize,
    after: usize,
) -> Result<(), NoMemory>
    requires told { AreTold told.now }
    requires rising { first ≤ after }
    requires within { after ≤ length (entries_in told.now) }
    requires none { MadeOf [] positions.old }
    ensures made { OnOk result (MadeOf (parts_among (entries_in told.now) day.now (between (entries_in told.now) first after)) positions.new) }
    ensures small { OnOk result (All IsSmall (parts_among (entries_in told.now) day.now (between (entries_in told.now) first after))) }
{
    for place in first..after {
        if let Some(part) = part_on(told_at(told, place), day) {
            positions.add(&part.account, &part.symbol, part.qty, part.value)?;
        }
    }
    Ok(())
}

// Adds what the lines of the live allocations among these entries move, to the positions of their executions. That the moves of an
// allocation fit is known once all its lines are read, so they are put into a list first.
fn add_moves(
    positions: &mut Positions,
    alloc: Global,
    told: &[Told],
    day: &Option<Day>,
    first: usize,
    after: usize,
) -> Result<(), NoMemory>
    requires told { AreTold told.now }
    requires rising { first ≤ after }
    requires within { after ≤ length (entries_in told.now) }
    requires made { MadeOf (parts_among (entries_in told.now) day.now (between (entries_in told.now) first after)) positions.old }
    requires small { All IsSmall (parts_among (entries_in told.now) day.now (between (entries_in told.now) first after)) }
    ensures { OnOk result (IsOfParts (parts_between (entries_in told.now) day.now first after) positions.new) }
{
    let mut moves = Vec::new(alloc);
    for place in first..after {
        if let Some(terms) = terms_on(told_at(told, place), day) {
            moves.clear();
            put_moves(&mut moves, terms)?;
            for part in &moves {
                positions.add(&part.account, &part.symbol, part.qty, part.value)?;
            }
        }
    }
    Ok(())
}

// Adds the sums of other positions, those of each as one part.
fn add_positions(
    positions: &mut Positions,
    alloc: Global,
    others: &Positions,
) -> Result<(), NoMemory>
    requires own { LeavesHalf positions.old }
    requires others { LeavesHalf others.now }
    ensures { OnOk result (AddsSums positions.old (λ key. sums_at others.now key.account key.symbol) positions.new) }
{
    let keys = others.keys(alloc)?;
    for key in &keys {
        if let Some(line) = others.get(&key.account, &key.symbol) {
            positions.add(&key.account, &key.symbol, line.qty, line.value)?;
        }
    }
    Ok(())
}

// Puts what the lines of terms move after other parts.
fn put_moves(parts: &mut Vec<Part>, terms: &Terms) -> Result<(), NoMemory>
    ensures parts { OnOk result (parts.new.items ≡ parts.old.items ++ moves_of terms.now) }
    ensures fit { OnOk result (TermsFit terms.now) }
{
    // The range of a quantity is known once its units are read.
    let _block = terms.block.units();
    for line in terms.lines.as_slice() {
        let part = Part::of_line(terms, line);
        parts.push(part)?;
        parts.push(part.from_house())?;
    }
    Ok(())
}

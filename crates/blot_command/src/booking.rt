//! The parts that the book puts to the positions, and takes from them.
ghost use Rattle.std.specs.Prelude.{◌≡◌, OnOk};
ghost use Rattle.blot_types.specs.Position.{FillFits, TermsFit};
ghost use Rattle.blot_command.specs.Booking.{put_in, taken_out, changed, changed_all, CanChange, CanChangeAll, lines_put, lines_taken, rebooked};
ghost use Rattle.blot_command.specs.Carried.{Opens, IsHoused, HasFillCells, HasTermsCells, HasEntryCells, EntryFits};

use blot_position::Positions;
use blot_types::{Command, Entry, Fill, Part, Terms, house_account};
use std::alloc::AllocError as NoMemory;

/// Puts a part for which a cell was made.
pub(crate) fn put_part(positions: &mut Positions, part: &Part)
    requires { CanChange (put_in part.now) positions.old }
    ensures { positions.new ≡ changed (put_in part.now) positions.old }
{
    positions.un_sub(&part.account, &part.symbol, part.qty, part.value);
}

/// Takes a part that was put.
pub(crate) fn take_part(positions: &mut Positions, part: &Part)
    requires { CanChange (taken_out part.now) positions.old }
    ensures { positions.new ≡ changed (taken_out part.now) positions.old }
{
    positions.sub(&part.account, &part.symbol, part.qty, part.value);
}

/// Puts the moves of the lines of terms: each leaves the house account, and then comes to its own.
pub(crate) fn put_lines(positions: &mut Positions, terms: &Terms)
    requires { CanChangeAll (lines_put terms.now terms.now.lines) positions.old }
    ensures { positions.new ≡ changed_all (lines_put terms.now terms.now.lines) positions.old }
{
    for line in terms.lines.as_slice() {
        let part = Part::of_line(terms, line);
        put_part(positions, &part.from_house());
        put_part(positions, &part);
    }
}

/// Takes the moves of the lines of terms: each leaves its own account, and then comes back to the house account.
pub(crate) fn take_lines(positions: &mut Positions, terms: &Terms)
    requires { CanChangeAll (lines_taken terms.now terms.now.lines) positions.old }
    ensures { positions.new ≡ changed_all (lines_taken terms.now terms.now.lines) positions.old }
{
    for line in terms.lines.as_slice() {
        let part = Part::of_line(terms, line);
        take_part(positions, &part);
        take_part(positions, &part.from_house());
    }
}

/// Takes the part that goes, if one does, and puts the one that comes.
pub(crate) fn rebook(positions: &mut Positions, gone: &Option<Part>, come: &Option<Part>)
    requires { CanChangeAll (rebooked gone.now come.now) positions.old }
    ensures { positions.new ≡ changed_all (rebooked gone.now come.now) positions.old }
{
    if let Some(part) = gone {
        take_part(positions, part);
    }
    if let Some(part) = come {
        put_part(positions, part);
    }
}

/// Makes the cells to which the parts of an entry come and go without memory. No sums change; out of memory
/// is the only error.
pub(crate) fn open_cells(positions: &mut Positions, entry: &Entry) -> Result<(), NoMemory>
    requires { IsHoused positions.old }
    ensures opens { Opens positions.old positions.new }
    ensures made { OnOk result (HasEntryCells positions.new entry.now.command) }
    ensures fits { OnOk result (EntryFits entry.now.command) }
{
    match &entry.command {
        Command::Trade(trade) => open_fill(positions, &trade.fill),
        Command::Correct(correct) => open_fill(positions, &correct.fill),
        Command::AllocNew(new) => open_terms(positions, &new.terms),
        Command::AllocReplace(replace) => open_terms(positions, &replace.terms),
        Command::Bust(_) | Command::AllocCancel(_) | Command::Withdraw(_) => Ok(()),
    }
}

// Makes the cells of a fill: that of its own account, and that of the house account. Where the first is there, so is the second.
fn open_fill(positions: &mut Positions, fill: &Fill) -> Result<(), NoMemory>
    requires { IsHoused positions.old }
    ensures opens { Opens positions.old positions.new }
    ensures made { OnOk result (HasFillCells positions.new fill.now) }
    ensures fits { OnOk result (FillFits fill.now) }
{
    let part = Part::of_fill(false, fill);
    if positions.is_open(&part.account, &part.symbol) {
        return Ok(());
    }
    positions.open(&house_account(), &part.symbol)?;
    positions.open(&part.account, &part.symbol)
}

// Makes the cells of terms: that of the house account, and those of its lines.
fn open_terms(positions: &mut Positions, terms: &Terms) -> Result<(), NoMemory>
    ensures opens { Opens positions.old positions.new }
    ensures made { OnOk result (HasTermsCells positions.new terms.now) }
    ensures fits { OnOk result (TermsFit terms.now) }
{
    // The range of a quantity is known once its units are read.
    let _block = terms.block.units();
    positions.open(&house_account(), &terms.symbol)?;
    for line in terms.lines.as_slice() {
        let part = Part::of_line(terms, line);
        positions.open(&part.account, &part.symbol)?;
    }
    Ok(())
}

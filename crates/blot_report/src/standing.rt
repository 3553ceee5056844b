//! The executions and the allocations of a day, as their entries tell them.
ghost use Rattle.std.specs.Prelude.{◌≡◌, ◌<◌, length, IfSome, get_or, option_copied};
ghost use Rattle.blot_types.specs.Position.{IsSmall};
ghost use Rattle.blot_types.specs.Survivors.{version_of};
ghost use Rattle.blot_command.specs.Standings.{standing_of};
ghost use Rattle.blot_report.specs.Day.{is_day};
ghost use Rattle.blot_report.specs.Standings.{AreTold, day_fill, entries_in, fill_on, part_on, terms_on};

use blot_command::{Standing, Told};
use blot_time::Day;
use blot_types::{Command, Entry, Fill, Part, Terms};

/// One of the entries, by its place.
pub(crate) fn told_at<'a, 't>(told: &'t [Told<'a>], place: usize) -> &'t Told<'a>
    requires all { AreTold told.now }
    requires within { place < length (entries_in told.now) }
    ensures own { result.now.entry ≡ get_or (entries_in told.now) place result.now.entry }
    ensures standing { result.now.standing ≡ standing_of (entries_in told.now) result.now.entry }
{
    &told[place]
}

/// The fill that an entry brings, where it stands and is of a day.
pub(crate) fn fill_on<'a>(told: &Told<'a>, day: &Option<Day>) -> Option<&'a Fill>
    ensures { option_copied result ≡ fill_on day.now told.now.standing told.now.entry }
{
    match told.standing() {
        Standing::Stands { .. } => day_fill(told.entry(), day),
        Standing::Live | Standing::Neither => None,
    }
}

/// What it adds to the positions.
pub(crate) fn part_on(told: &Told, day: &Option<Day>) -> Option<Part>
    ensures part { result ≡ part_on day.now told.now.standing told.now.entry }
    ensures small { IfSome result IsSmall }
{
    let Standing::Stands { is_named } = told.standing() else {
        return None;
    };
    match day_fill(told.entry(), day) {
        None => None,
        Some(fill) => Some(Part::of_fill(is_named, fill)),
    }
}

/// The terms of the allocation that an entry brings, where it is live and of a day.
pub(crate) fn terms_on<'a>(told: &Told<'a>, day: &Option<Day>) -> Option<&'a Terms>
    ensures { option_copied result ≡ terms_on day.now told.now.standing told.now.entry }
{
    if told.standing() != Standing::Live {
        return None;
    }
    match &told.entry().command {
        Command::AllocNew(new) if is_day(new.terms.day, day) => Some(&new.terms),
        Command::AllocReplace(replace) if is_day(replace.terms.day, day) => Some(&replace.terms),
        Command::Trade(_)
        | Command::Correct(_)
        | Command::Bust(_)
        | Command::AllocNew(_)
        | Command::AllocReplace(_)
        | Command::AllocCancel(_)
        | Command::Withdraw(_) => None,
    }
}

// The fill that an entry brings, where it is of a day.
fn day_fill<'a>(entry: &'a Entry, day: &Option<Day>) -> Option<&'a Fill>
    ensures { option_copied result ≡ day_fill day.now (version_of entry.now) }
{
    match &entry.command {
        Command::Trade(trade) if is_day(trade.fill.day, day) => Some(&trade.fill),
        Command::Correct(correct) if is_day(correct.fill.day, day) => Some(&correct.fill),
        Command::Trade(_)
        | Command::Correct(_)
        | Command::Bust(_)
        | Command::AllocNew(_)
        | Command::AllocReplace(_)
        | Command::AllocCancel(_)
        | Command::Withdraw(_) => None,
    }
}

// Whether a day is the one that is asked for, where one is.
fn is_day(own: Day, day: &Option<Day>) -> bool
    ensures { result ≡ is_day day.now own }
{
    match day {
        None => true,
        Some(day) => own == *day,
    }
}

//! Reads whole lines.
ghost use Rattle.std.specs.Prelude.{◌≡◌, ℕ, Err, IsOkAnd, true, false};
ghost use Rattle.blot_console.specs.Asks.{Gives, IsAllocate};
ghost use Rattle.blot_console.specs.Parsing.{words_line, ask_of, parsed, is_out_of_memory};
ghost use Rattle.blot_console.specs.Tables.{IsBadAt};

use crate::allocate::allocate_line;
use crate::fault::{Refusal, Wrong};
use crate::kinds::{Kind, kind_of};
use crate::lines::{
    mine_line, order_line, position_line, redo_line, report_line, undo_line, withdraw_line,
};
use crate::questions::{
    allocation_line, entry_line, execution_line, needs_line, orders_line, positions_line,
    refusals_line, steps_line,
};
use crate::words::Words;
use crate::{Ask, LineFault};
use std::alloc::Global;

/// The most bytes of a line, without its end. This project's rule.
pub const LINE_MAX: usize = 65_536;

/// What an operator's line asks, or its first fault. The line is given without its end. `NoMemory` comes last; only the
/// lists of an allocation take memory. This project's rule.
#[tactic(auto, using(crate::proofs::TableLemmas::parsed_first), unfolding(crate::specs::Parsing::parsed))]
pub fn parse_line(alloc: Global, line: &[u8]) -> Result<Ask, LineFault>
    ensures meaning { is_out_of_memory result ≡ false → result ≡ parsed line.now }
    ensures memory { is_out_of_memory result ≡ true → IsOkAnd (parsed line.now) IsAllocate }

    // In a reader's words: the place that is told is the first bad one.
    ensures first { (place : ℕ) → parsed line.now ≡ Err (LineFault.BadValue place) → IsBadAt line.now place }
{
    match ask_of(alloc, line) {
        Ok(ask) => Ok(ask),
        Err(Refusal::Wrong(wrong)) => Err(wrong.fault()),
        Err(Refusal::NoMemory) => Err(LineFault::NoMemory),
    }
}

// The ask of a line.
#[tactic(auto, unfolding(crate::specs::Parsing::ask_of))]
fn ask_of(alloc: Global, line: &[u8]) -> Result<Ask, Refusal>
    ensures { Gives result (ask_of line.now) }
{
    if line.len() > LINE_MAX {
        return Err(Refusal::Wrong(Wrong::TooLong));
    }
    words_line(alloc, &Words::of(line))
}

// The ask of a line of words.
#[tactic(auto, unfolding(crate::specs::Parsing::words_line))]
fn words_line(alloc: Global, words: &Words) -> Result<Ask, Refusal>
    ensures { Gives result (words_line words.now) }
{
    let ask = match kind_of(words.at(0))? {
        Kind::Undo => undo_line(words)?,
        Kind::Redo => redo_line(words)?,
        Kind::Withdraw => withdraw_line(words)?,
        Kind::Mine => mine_line(words)?,
        Kind::Order => order_line(words)?,
        Kind::Position => position_line(words)?,
        Kind::Report => report_line(words)?,
        Kind::Allocate => allocate_line(alloc, words)?,
        Kind::Entry => entry_line(words)?,
        Kind::Execution => execution_line(words)?,
        Kind::Allocation => allocation_line(words)?,
        Kind::Needs => needs_line(words)?,
        Kind::Orders => orders_line(words)?,
        Kind::Positions => positions_line(words)?,
        Kind::Steps => steps_line(words)?,
        Kind::Refusals => refusals_line(words)?,
    };
    Ok(ask)
}

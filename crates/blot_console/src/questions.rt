//! What each question's line asks.
ghost use Rattle.std.specs.Prelude.{◌≡◌};
ghost use Rattle.blot_console.specs.Forms.{rows_form};
ghost use Rattle.blot_console.specs.QuestionLines.{allocation_line, entry_line, execution_line, needs_line, optional_text, orders_line, positions_line, refusals_line, second_text, steps_line};
ghost use Rattle.blot_console.specs.Rows.{value_at};

use crate::Ask;
use crate::fault::Wrong;
use crate::forms::rows_form;
use crate::rows::{at, counted, number_at, value_at};
use crate::words::Words;
use blot_desk::Question;
use blot_types::{AllocKey, ExecKey, Text64};

/// `entry N`.
#[tactic(auto, unfolding(crate::specs::QuestionLines::entry_line))]
pub(crate) fn entry_line(words: &Words) -> Result<Ask, Wrong>
    ensures { result ≡ entry_line words.now }
{
    counted(words, 2)?;
    let number = number_at(words, 1)?;
    Ok(Ask::Look(Question::Entry(number)))
}

/// `execution peer execid`.
#[tactic(auto, unfolding(crate::specs::QuestionLines::execution_line))]
pub(crate) fn execution_line(words: &Words) -> Result<Ask, Wrong>
    ensures { result ≡ execution_line words.now }
{
    counted(words, 3)?;
    let peer = value_at::<Text64>(words, 1)?;
    let id = value_at::<Text64>(words, 2)?;
    Ok(Ask::Look(Question::Execution(ExecKey { peer, id })))
}

/// `allocation peer allocid`.
#[tactic(auto, unfolding(crate::specs::QuestionLines::allocation_line))]
pub(crate) fn allocation_line(words: &Words) -> Result<Ask, Wrong>
    ensures { result ≡ allocation_line words.now }
{
    counted(words, 3)?;
    let peer = value_at::<Text64>(words, 1)?;
    let id = value_at::<Text64>(words, 2)?;
    Ok(Ask::Look(Question::Allocation(AllocKey { peer, id })))
}

/// `needs N`.
#[tactic(auto, unfolding(crate::specs::QuestionLines::needs_line))]
pub(crate) fn needs_line(words: &Words) -> Result<Ask, Wrong>
    ensures { result ≡ needs_line words.now }
{
    counted(words, 2)?;
    let number = number_at(words, 1)?;
    Ok(Ask::Look(Question::Needs(number)))
}

/// `steps n`.
#[tactic(auto, unfolding(crate::specs::QuestionLines::steps_line))]
pub(crate) fn steps_line(words: &Words) -> Result<Ask, Wrong>
    ensures { result ≡ steps_line words.now }
{
    counted(words, 2)?;
    let count = rows_at(words, 1)?;
    Ok(Ask::Look(Question::Steps(count)))
}

/// `refusals n`.
#[tactic(auto, unfolding(crate::specs::QuestionLines::refusals_line))]
pub(crate) fn refusals_line(words: &Words) -> Result<Ask, Wrong>
    ensures { result ≡ refusals_line words.now }
{
    counted(words, 2)?;
    let count = rows_at(words, 1)?;
    Ok(Ask::Look(Question::Refusals(count)))
}

/// `orders`, or `orders peer`.
#[tactic(auto, unfolding(crate::specs::QuestionLines::orders_line))]
pub(crate) fn orders_line(words: &Words) -> Result<Ask, Wrong>
    ensures { result ≡ orders_line words.now }
{
    let peer = optional_text(words)?;
    Ok(Ask::Orders(peer))
}

/// `positions`, or `positions account`.
#[tactic(auto, unfolding(crate::specs::QuestionLines::positions_line))]
pub(crate) fn positions_line(words: &Words) -> Result<Ask, Wrong>
    ensures { result ≡ positions_line words.now }
{
    let account = optional_text(words)?;
    Ok(Ask::Positions(account))
}

// The word after the first, which may be left out.
#[tactic(auto, unfolding(crate::specs::QuestionLines::optional_text))]
fn optional_text(words: &Words) -> Result<Option<Text64>, Wrong>
    ensures { result ≡ optional_text words.now }
{
    if words.count() == 1 {
        Ok(None)
    } else {
        second_text(words)
    }
}

// The word after the first.
#[tactic(auto, unfolding(crate::specs::QuestionLines::second_text))]
fn second_text(words: &Words) -> Result<Option<Text64>, Wrong>
    ensures { result ≡ second_text words.now }
{
    counted(words, 2)?;
    let text = value_at::<Text64>(words, 1)?;
    Ok(Some(text))
}

// How many rows are asked for, at a place.
#[tactic(auto, unfolding(crate::specs::Rows::value_at))]
fn rows_at(words: &Words, place: usize) -> Result<u16, Wrong>
    ensures { result ≡ value_at place rows_form words.now }
{
    at(place, rows_form(words.at(place)))
}

//! What each line asks, except `allocate`.
ghost use Rattle.std.specs.Prelude.{◌≡◌};
ghost use Rattle.blot_console.specs.Lines.{undo_line, redo_line, withdraw_line, mine_line, order_line, position_line, report_line};

use crate::Ask;
use crate::fault::Wrong;
use crate::rows::{counted, number_at, value_at};
use crate::words::Words;
use blot_desk::Event;
use blot_time::Day;
use blot_types::{Command, OrderKey, Text64};

/// `undo N`.
#[tactic(auto, unfolding(crate::specs::Lines::undo_line))]
pub(crate) fn undo_line(words: &Words) -> Result<Ask, Wrong>
    ensures { result ≡ undo_line words.now }
{
    counted(words, 2)?;
    let newest = number_at(words, 1)?;
    Ok(Ask::Step(Event::Undo { newest }))
}

/// `redo`.
#[tactic(auto, unfolding(crate::specs::Lines::redo_line))]
pub(crate) fn redo_line(words: &Words) -> Result<Ask, Wrong>
    ensures { result ≡ redo_line words.now }
{
    counted(words, 1)?;
    Ok(Ask::Step(Event::Redo))
}

/// `withdraw N`.
#[tactic(auto, unfolding(crate::specs::Lines::withdraw_line))]
pub(crate) fn withdraw_line(words: &Words) -> Result<Ask, Wrong>
    ensures { result ≡ withdraw_line words.now }
{
    counted(words, 2)?;
    let number = number_at(words, 1)?;
    Ok(Ask::Step(Event::Submit(Command::Withdraw(number))))
}

/// `mine`.
#[tactic(auto, unfolding(crate::specs::Lines::mine_line))]
pub(crate) fn mine_line(words: &Words) -> Result<Ask, Wrong>
    ensures { result ≡ mine_line words.now }
{
    counted(words, 1)?;
    Ok(Ask::Mine)
}

/// `order peer orderid`.
#[tactic(auto, unfolding(crate::specs::Lines::order_line))]
pub(crate) fn order_line(words: &Words) -> Result<Ask, Wrong>
    ensures { result ≡ order_line words.now }
{
    counted(words, 3)?;
    let peer = value_at::<Text64>(words, 1)?;
    let id = value_at::<Text64>(words, 2)?;
    Ok(Ask::Step(Event::AskOrder(OrderKey { peer, id })))
}

/// `position account symbol`.
#[tactic(auto, unfolding(crate::specs::Lines::position_line))]
pub(crate) fn position_line(words: &Words) -> Result<Ask, Wrong>
    ensures { result ≡ position_line words.now }
{
    counted(words, 3)?;
    let account = value_at::<Text64>(words, 1)?;
    let symbol = value_at::<Text64>(words, 2)?;
    Ok(Ask::Step(Event::AskPosition(account, symbol)))
}

/// `report day`.
#[tactic(auto, unfolding(crate::specs::Lines::report_line))]
pub(crate) fn report_line(words: &Words) -> Result<Ask, Wrong>
    ensures { result ≡ report_line words.now }
{
    counted(words, 2)?;
    let day = value_at::<Day>(words, 1)?;
    Ok(Ask::Report(day))
}

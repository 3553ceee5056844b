//! The forms of words, each read without regard to its place.
ghost use Rattle.std.specs.Prelude.{◌≡◌, ◌≤◌, IfSome};
ghost use Rattle.blot_types.specs.declared.TheConstants.{ITEMS_MAX};
ghost use Rattle.blot_console.specs.Forms.{number_form, count_form, rows_form};

use crate::digits::{DIGITS_MAX, is_number, number_of};
use blot_decimal::{Price, Qty};
use blot_time::Day;
use blot_types::{ITEMS_MAX, Sign, Text64};

/// The most rows that a question asks for. This project's rule.
pub(crate) const ROWS_MAX: u16 = 1_000;

/// A type of values that has one form.
pub(crate) trait Form: Sized {
    ghost use Rattle.std.specs.Prelude.{ℕ, List, Option};

    ghost form: { List ℕ → Option Self };

    /// What a word says, if it has the form.
    fn from_word(word: &[u8]) -> Option<Self>
        ensures { result ≡ form word.now };
}

/// An identifier, an account or a symbol.
impl Form for Text64 {
    ghost use Rattle.blot_console.specs.Forms.{text_form};

    ghost form = { text_form };

    #[tactic(auto, unfolding(crate::specs::Forms::text_form))]
    fn from_word(word: &[u8]) -> Option<Text64> {
        Text64::read(word)
    }
}

/// `B` or `S`.
impl Form for Sign {
    ghost use Rattle.blot_console.specs.Forms.{sign_form};

    ghost form = { sign_form };

    #[tactic(auto, unfolding(crate::specs::Forms::sign_form))]
    fn from_word(word: &[u8]) -> Option<Sign> {
        match word {
            b"B" => Some(Sign::Buy),
            b"S" => Some(Sign::Sell),
            _ => None,
        }
    }
}

impl Form for Day {
    ghost use Rattle.blot_console.specs.Forms.{day_form};

    ghost form = { day_form };

    #[tactic(auto, unfolding(crate::specs::Forms::day_form))]
    fn from_word(word: &[u8]) -> Option<Day> {
        Day::read(word).ok()
    }
}

impl Form for Price {
    ghost use Rattle.blot_console.specs.Forms.{price_form};

    ghost form = { price_form };

    #[tactic(auto, unfolding(crate::specs::Forms::price_form))]
    fn from_word(word: &[u8]) -> Option<Price> {
        Price::read(word).ok()
    }
}

/// A quantity, 0 among them.
impl Form for Qty {
    ghost use Rattle.blot_console.specs.Forms.{qty_form};

    ghost form = { qty_form };

    #[tactic(auto, unfolding(crate::specs::Forms::qty_form))]
    fn from_word(word: &[u8]) -> Option<Qty> {
        Qty::read(word).ok()
    }
}

/// The number of a step.
#[tactic(auto, unfolding(crate::specs::Forms::number_form))]
pub(crate) fn number_form(word: &[u8]) -> Option<u64>
    ensures { result ≡ number_form word.now }
{
    if !is_number(word) || word.len() > DIGITS_MAX {
        return None;
    }
    Some(number_of(word))
}

/// How many executions follow.
#[tactic(auto, unfolding(crate::specs::Forms::count_form))]
pub(crate) fn count_form(word: &[u8]) -> Option<usize>
    ensures value { result ≡ count_form word.now }
    ensures range { IfSome result (λ count. count ≤ ITEMS_MAX) }
{
    if !is_number(word) {
        return None;
    }
    let number = number_of(word);
    if 1 <= number && number <= ITEMS_MAX as u64 {
        Some(number as usize)
    } else {
        None
    }
}

/// How many rows are asked for.
#[tactic(auto, unfolding(crate::specs::Forms::rows_form))]
pub(crate) fn rows_form(word: &[u8]) -> Option<u16>
    ensures { result ≡ rows_form word.now }
{
    if !is_number(word) {
        return None;
    }
    let number = number_of(word);
    if 1 <= number && number <= u64::from(ROWS_MAX) {
        Some(number as u16)
    } else {
        None
    }
}

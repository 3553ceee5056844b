//! The rows of a line: how many words it has, and what the word at each place says.
ghost use Rattle.std.specs.Prelude.{◌≡◌};
ghost use Rattle.blot_console.specs.Forms.{number_form};
ghost use Rattle.blot_console.specs.Rows.{counted, at, value_at};

use crate::fault::Wrong;
use crate::forms::{Form, number_form};
use crate::words::Words;

/// That a line has so many words, the first among them.
#[tactic(auto, unfolding(crate::specs::Rows::counted))]
pub(crate) fn counted(words: &Words, count: usize) -> Result<(), Wrong>
    ensures { result ≡ counted count words.now }
{
    if words.count() == count {
        Ok(())
    } else {
        Err(Wrong::WrongCount)
    }
}

/// What a word says, or that the word at this place is bad.
pub(crate) fn at<T>(place: usize, said: Option<T>) -> Result<T, Wrong>
    ensures { result ≡ at place said }
{
    match said {
        Some(value) => Ok(value),
        None => Err(Wrong::BadValue(place)),
    }
}

/// What the word at a place says, by the form of its type.
#[tactic(auto, unfolding(crate::specs::Rows::value_at))]
pub(crate) fn value_at<T: Form>(words: &Words, place: usize) -> Result<T, Wrong>
    ensures { result ≡ value_at place T.form words.now }
{
    at(place, T::from_word(words.at(place)))
}

/// The number of a step, at a place.
#[tactic(auto, unfolding(crate::specs::Rows::value_at))]
pub(crate) fn number_at(words: &Words, place: usize) -> Result<u64, Wrong>
    ensures { result ≡ value_at place number_form words.now }
{
    at(place, number_form(words.at(place)))
}

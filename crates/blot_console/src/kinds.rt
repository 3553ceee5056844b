//! Which line it is, by its first word.
ghost use Rattle.std.specs.Prelude.{◌≡◌};
ghost use Rattle.blot_types.specs.Keys.{same_text};
ghost use Rattle.blot_console.specs.Parsing.{kind_of, question_kind_of};

use crate::fault::Wrong;

/// The kinds of lines.
#[derive(Clone, Copy)]
pub(crate) enum Kind {
    Undo,
    Redo,
    Withdraw,
    Mine,
    Order,
    Position,
    Report,
    Allocate,
    Entry,
    Execution,
    Allocation,
    Needs,
    Orders,
    Positions,
    Steps,
    Refusals,
}

/// The kind of line that a first word names.
#[tactic(auto, unfolding(crate::specs::Parsing::kind_of))]
pub(crate) fn kind_of(word: &[u8]) -> Result<Kind, Wrong>
    ensures { result ≡ kind_of word.now }
{
    if is_word(word, b"undo") {
        Ok(Kind::Undo)
    } else if is_word(word, b"redo") {
        Ok(Kind::Redo)
    } else if is_word(word, b"withdraw") {
        Ok(Kind::Withdraw)
    } else if is_word(word, b"mine") {
        Ok(Kind::Mine)
    } else if is_word(word, b"order") {
        Ok(Kind::Order)
    } else if is_word(word, b"position") {
        Ok(Kind::Position)
    } else if is_word(word, b"report") {
        Ok(Kind::Report)
    } else if is_word(word, b"allocate") {
        Ok(Kind::Allocate)
    } else {
        question_kind_of(word)
    }
}

// The kind of question that a first word names.
#[tactic(auto, unfolding(crate::specs::Parsing::question_kind_of))]
fn question_kind_of(word: &[u8]) -> Result<Kind, Wrong>
    ensures { result ≡ question_kind_of word.now }
{
    if is_word(word, b"entry") {
        Ok(Kind::Entry)
    } else if is_word(word, b"execution") {
        Ok(Kind::Execution)
    } else if is_word(word, b"allocation") {
        Ok(Kind::Allocation)
    } else if is_word(word, b"needs") {
        Ok(Kind::Needs)
    } else if is_word(word, b"orders") {
        Ok(Kind::Orders)
    } else if is_word(word, b"positions") {
        Ok(Kind::Positions)
    } else if is_word(word, b"steps") {
        Ok(Kind::Steps)
    } else if is_word(word, b"refusals") {
        Ok(Kind::Refusals)
    } else {
        Err(Wrong::UnknownWord)
    }
}

/// Whether a word is this one.
pub(crate) fn is_word(word: &[u8], name: &[u8]) -> bool
    ensures { result ≡ same_text word.now name.now }
{
    word == name
}

//! A typed line, whose words may be divided by spaces, as a line whose words are divided by tabs.
ghost use Rattle.std.specs.Prelude.{◌≡◌, ◌∷◌, ℕ, IfOk, List, OnOk};
ghost use Rattle.blot_ask.specs.Typed.{mark_of, typed, with_tabs, words_of};
ghost use Rattle.blot_ask.specs.Typing.{BeginsWord, behind, comes_on_to};

use std::alloc::{AllocError as NoMemory, Global};

const TAB: u8 = b'\t';

/// What a typed line asks. A line with a tab stays as it is. Else spaces divide its words, however many of them, and a tab is put
/// between two words. Between two quotes a space belongs to the word, and the quotes go: `""` is an empty word, and a
/// quote that isn't closed goes to the end of the line.
pub fn typed(alloc: Global, line: &[u8]) -> Result<Vec<u8>, NoMemory>
    ensures { IfOk result (λ text. text.items ≡ typed line.now) }
{
    if line.contains(&TAB) {
        copied(alloc, line)
    } else {
        tabbed(alloc, line)
    }
}

// The same line.
fn copied(alloc: Global, line: &[u8]) -> Result<Vec<u8>, NoMemory>
    ensures { IfOk result (λ text. text.items ≡ line.now) }
{
    let mut text = Vec::new(alloc);
    text.extend_from_slice(line)?;
    Ok(text)
}

// The words of a line that spaces divide, with a tab between two.
fn tabbed(alloc: Global, line: &[u8]) -> Result<Vec<u8>, NoMemory>
    ensures { IfOk result (λ text. text.items ≡ with_tabs (words_of line.now)) }
{
    let mut typing = Typing::new(alloc);
    for byte in line {
        typing.take(*byte)?;
    }
    Ok(typing.text)
}

// What a byte of a line is.
#[derive(Clone, Copy, Drop)]
enum Mark {
    // A byte of a word.
    Letter(u8),
    // It begins quotes, or ends them.
    Quote,
    // It stands between words.
    Gap,
}

// What a byte is, inside of quotes or outside.
#[tactic(auto, unfolding(crate::specs::Typed::mark_of))]
fn mark_of(quoted: bool, byte: u8) -> Mark
    ensures { result ≡ mark_of quoted byte }
{
    if byte == b'"' {
        Mark::Quote
    } else if byte == b' ' && !quoted {
        Mark::Gap
    } else {
        Mark::Letter(byte)
    }
}

// Where the next byte of a line comes: before all words, in a word, or behind one.
#[derive(Clone, Copy, Drop)]
enum Place {
    First,
    Within,
    Behind,
}

impl Place {
    // Where a gap leads.
    fn behind(self) -> Place
        ensures { result ≡ behind self }
    {
        match self {
            Place::First => Place::First,
            Place::Within | Place::Behind => Place::Behind,
        }
    }
}

// A line as far as it is read: its words with a tab between two, where the next byte comes, and whether that is inside of quotes.
#[derive(Drop)]
struct Typing {
    text: Vec<u8>,
    place: Place,
    quoted: bool,
}

impl Typing {
    // Before a line.
    fn new(alloc: Global) -> Typing
        ensures { (line : List ℕ) → comes_on_to result line ≡ with_tabs (words_of line) }
    {
        Typing {
            text: Vec::new(alloc),
            place: Place::First,
            quoted: false,
        }
    }

    // One more byte.
    fn take(&mut self, byte: u8) -> Result<(), NoMemory>
        ensures { OnOk result ((rest : List ℕ) → comes_on_to self.new rest ≡ comes_on_to self.old (byte ∷ rest)) }
    {
        match mark_of(self.quoted, byte) {
            Mark::Quote => {
                self.begin()?;
                self.quoted = !self.quoted;
            }
            Mark::Gap => self.place = self.place.behind(),
            Mark::Letter(letter) => {
                self.begin()?;
                self.text.push(letter)?;
            }
        }
        Ok(())
    }

    // A word begins, behind a tab where it isn't the first, unless one has begun.
    fn begin(&mut self) -> Result<(), NoMemory>
        ensures { OnOk result (BeginsWord self.old self.new) }
    {
        if matches!(self.place, Place::Behind) {
            self.text.push(TAB)?;
        }
        self.place = Place::Within;
        Ok(())
    }
}

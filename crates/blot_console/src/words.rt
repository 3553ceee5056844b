//! The words of a line.
ghost use Rattle.std.specs.Prelude.{◌≡◌, ◌∷◌, ◌≤◌, ◌<◌, ◌^◌, drop, length, take, option_copied};
ghost use Rattle.std.specs.Iterator.{YieldsFirstRef, item_count};
ghost use Rattle.std.specs.List.{position_or_len};
ghost use Rattle.blot_console.specs.Words.{is_tab, words_of, words_behind, word_at, GivesPair};

use std::marker::Model;

// The byte between two words.
const TAB: u8 = b'\t';

/// The words of a line, from left to right. A contract sees them as their list.
#[derive(Drop)]
pub(crate) struct Words<'a> {
    // How many words there are at most.
    most: usize,
    text: &'a [u8],
}

impl<'a> Model for Words<'a> {
    ghost use Rattle.std.specs.Prelude.{ℕ, List, take};
    ghost use Rattle.blot_console.specs.Words.{words_of};

    ghost Value = { List (List ℕ) };

    ghost view = { λ words. take words.most (words_of words.text.now) };
}

impl<'a> Words<'a> {
    /// The words of a whole line.
    pub(crate) fn of(line: &'a [u8]) -> Words<'a>
        ensures { result ≡ words_of line.now }
    {
        Words {
            most: line.len() + 1,
            text: line,
        }
    }

    /// The first words, at most so many.
    pub(crate) fn first(&self, count: usize) -> Words<'a>
        ensures { result ≡ take count self.now }
    {
        let most = if count < self.most { count } else { self.most };
        Words {
            most,
            text: self.text,
        }
    }

    // The same words, once more.
    fn again(&self) -> Words<'a>
        ensures value { result ≡ self.now }
        ensures few { length result ≤ usize.MAX }
    {
        Words {
            most: self.most,
            text: self.text,
        }
    }

    /// The words after the first so many.
    pub(crate) fn behind(&self, count: usize) -> Words<'a>
        ensures { result ≡ drop count self.now }
    {
        let mut words = self.again();
        for _ in 0..count {
            let _ = words.next();
        }
        words
    }

    /// The word at a place, from 0 on; an empty one where there is none.
    pub(crate) fn at(&self, place: usize) -> &'a [u8]
        ensures { result.now ≡ word_at place self.now }
    {
        let mut words = self.behind(place);
        match words.next() {
            Some(word) => word,
            None => &[],
        }
    }

    /// The next two words, if there are two.
    pub(crate) fn next_pair(&mut self) -> Option<(&'a [u8], &'a [u8])>
        ensures { GivesPair self.old result self.new }
    {
        let first = self.next()?;
        let second = self.next()?;
        Some((first, second))
    }

    /// How many words there are.
    pub(crate) fn count(&self) -> usize
        ensures { result ≡ length self.now }
    {
        let mut count = 0;
        for _ in self.again() {
            count += 1;
        }
        count
    }
}

impl<'a> Iterator for Words<'a> {
    type Item = &'a [u8];

    ghost next_gives = { YieldsFirstRef (λ words. words) };

    ghost remaining = { item_count (λ words. words) };

    fn next(&mut self) -> Option<&'a [u8]> {
        if self.most == 0 {
            return None;
        }
        let (word, behind) = first_word(self.text);
        match behind {
            Some(text) => {
                self.most -= 1;
                self.text = text;
            }
            None => self.most = 0,
        }
        Some(word)
    }
}

// Where the first tab stands, or the length of the text where there is none.
fn tab_at(text: &[u8]) -> usize
    ensures place { result ≡ position_or_len is_tab text.now }
    ensures within { result ≤ length text.now }
{
    text.iter().take_while(|byte| **byte != TAB).count()
}

// The first word, and what stands after the tab that ends it, if one does.
fn first_word(text: &[u8]) -> (&[u8], Option<&[u8]>)
    ensures { words_of text.now ≡ result.0.now ∷ words_behind (option_copied result.1) }
{
    let (word, rest) = text.split_at(tab_at(text));
    match rest {
        [_, behind @ ..] => (word, Some(behind)),
        [] => (word, None),
    }
}

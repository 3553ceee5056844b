//! An audit trail in the making: the lines of the messages so far.
ghost use Rattle.std.specs.Prelude.{◌≡◌, ◌+◌, ◌-◌, ◌<◌, ◌≤◌, ◌^◌, ◌∷◌, ◌++◌, [], length, IfOk, OnOk, flat_map};
ghost use Rattle.blot_tag.specs.Views.{text_of};
ghost use Rattle.blot_session.specs.Runs.{said_by};
ghost use Rattle.blot_trail.specs.Making.{behind_bytes, behind_line, finished, line_for, none_yet, offset_of, untold};
ghost use Rattle.blot_trail.specs.TrailText.{IsToldOf, action_text, times, word_sum, word_sums};

use crate::word::Word;
use crate::wording::{put_became, put_bytes, put_head, put_sender, put_sent, put_sum};
use blot_capture::Became;
use blot_console::put_number;
use blot_fields::{FieldFault, Message};
use blot_session::Action;
use blot_tag::Frame;
use std::alloc::{AllocError as NoMemory, Global};
use std::marker::Model;

/// What is told of a message, except its place and where it begins: how its line ends, and the lines of what would be sent.
#[derive(Drop)]
pub struct Noted {
    tail: Vec<u8>,
    word: Word,
    length: u64,
}

impl Model for Noted {
    ghost use Rattle.blot_trail.specs.Making.{TrailLine};

    ghost Value = { TrailLine };

    ghost view = { λ noted. record { tail = noted.tail.items; word = noted.word; length_of = noted.length } };
}

impl Noted {
    /// What is told of a frame that says this and became this, and whose session wants these actions done. An error is out of memory.
    pub fn new(
        alloc: Global,
        frame: &Frame,
        said: &Result<Message, FieldFault>,
        became: &Became,
        actions: &[Action],
    ) -> Result<Noted, NoMemory>
        requires said { said.now ≡ said_by (text_of frame.now) }
        requires told { IsToldOf became.now }
        ensures { IfOk result (λ noted. noted ≡ line_for (text_of frame.now) became.now actions.now) }
    {
        let mut tail = Vec::new(alloc);
        put_sender(&mut tail, frame)?;
        put_head(alloc, &mut tail, said, frame)?;
        tail.push(b'\t')?;
        put_became(alloc, &mut tail, became)?;
        put_all_sent(&mut tail, actions)?;
        Ok(Noted {
            tail,
            word: Word::of(became),
            length: frame.text().len() as u64,
        })
    }
}

/// An audit trail in the making. A contract sees its text, the word of each message, and where it stands in the stream.
#[derive(Drop)]
pub struct Trail {
    text: Vec<u8>,
    words: Vec<Word>,
    end: u64,
    passed: u64,
    skipped: u64,
}

impl Model for Trail {
    ghost use Rattle.blot_trail.specs.Making.{IsMaking, Making};

    ghost Value = { Making };

    ghost view = { λ trail. record {
      text = trail.text.items;
      words = trail.words.items;
      end = trail.end;
      passed = trail.passed;
      skipped = trail.skipped;
    } };

    ghost invariant = { λ trail. IsMaking (record {
      text = trail.text.items;
      words = trail.words.items;
      end = trail.end;
      passed = trail.passed;
      skipped = trail.skipped;
    }) };
}

impl Trail {
    /// The trail of a stream from its first byte on. It takes no memory.
    pub fn new(alloc: Global) -> Trail
        ensures { result ≡ none_yet }
    {
        Trail {
            text: Vec::new(alloc),
            words: Vec::new(alloc),
            end: 0,
            passed: 0,
            skipped: 0,
        }
    }

    /// So many bytes are passed over by now. It takes no memory.
    pub fn pass(&mut self, all: u64)
        requires more { self.old.skipped + self.old.passed ≤ all }
        requires within { offset_of self.old + untold all self.old < 2 ^ 63 }
        ensures { self.new ≡ behind_bytes (untold all self.old) self.old }
    {
        self.passed = all - self.skipped;
    }

    /// Where the first byte stands that is neither told nor passed over.
    pub fn offset(&self) -> u64
        requires { offset_of self.now < 2 ^ 63 }
        ensures { result ≡ offset_of self.now }
    {
        self.end + self.passed
    }

    /// A message comes, after what is passed over. An error is out of memory, and what the trail is then isn't said.
    pub fn put(&mut self, alloc: Global, noted: &Noted) -> Result<(), NoMemory>
        requires { offset_of self.old + noted.now.length_of < 2 ^ 63 }
        ensures { OnOk result (self.new ≡ behind_line noted.now self.old) }
    {
        let Trail {
            text,
            words,
            end,
            passed,
            skipped,
        } = self;
        let offset = *end + *passed;
        put_bytes(alloc, text, b"skipped", *end, *passed)?;
        text.extend_from_slice(b"message")?;
        put_number(alloc, text, words.len() as u64 + 1)?;
        put_number(alloc, text, offset)?;
        text.extend_from_slice(&noted.tail)?;
        words.push(noted.word)?;
        *end = offset + noted.length;
        *skipped += *passed;
        *passed = 0;
        Ok(())
    }

    /// The whole text, where so many bytes of an unfinished rest are left. An error is out of memory.
    pub fn finish(self, alloc: Global, rest: u64) -> Result<Vec<u8>, NoMemory>
        requires { offset_of self < 2 ^ 63 }
        ensures { IfOk result (λ text. text.items ≡ finished self rest) }
    {
        let Trail {
            text,
            words,
            end,
            passed,
            skipped,
        } = self;
        let mut text = text;
        put_bytes(alloc, &mut text, b"skipped", end, passed)?;
        put_bytes(alloc, &mut text, b"rest", end + passed, rest)?;
        put_word_sums(alloc, &mut text, &words)?;
        put_sum(alloc, &mut text, b"skipped", skipped + passed)?;
        put_sum(alloc, &mut text, b"rest", rest)?;
        text.extend_from_slice(b"end")?;
        put_number(alloc, &mut text, words.len() as u64)?;
        text.push(b'\n')?;
        Ok(text)
    }
}

// Adds the lines of what is sent at the end of a text.
fn put_all_sent(text: &mut Vec<u8>, actions: &[Action]) -> Result<(), NoMemory>
    ensures { OnOk result (text.new.items ≡ text.old.items ++ flat_map action_text actions.now) }
{
    for action in actions {
        put_action(text, action)?;
    }
    Ok(())
}

// Adds at the end of a text the line of what an action sends, if it sends anything.
fn put_action(text: &mut Vec<u8>, action: &Action) -> Result<(), NoMemory>
    ensures { OnOk result (text.new.items ≡ text.old.items ++ action_text action.now) }
{
    match action {
        Action::Send(bytes) => put_sent(text, bytes.as_slice()),
        Action::Deliver(_) | Action::Close(_) => Ok(()),
    }
}

// Adds how often each word is told at the end of a text.
#[tactic(auto, unfolding(crate::specs::TrailText::word_sums))]
fn put_word_sums(alloc: Global, text: &mut Vec<u8>, words: &[Word]) -> Result<(), NoMemory>
    ensures { OnOk result (text.new.items ≡ text.old.items ++ word_sums words.now) }
{
    put_word_sum(alloc, text, words, Word::Accepted)?;
    put_word_sum(alloc, text, words, Word::Refused)?;
    put_word_sum(alloc, text, words, Word::Rejected)?;
    put_word_sum(alloc, text, words, Word::Unsupported)?;
    put_word_sum(alloc, text, words, Word::Taken)?;
    put_word_sum(alloc, text, words, Word::Early)?;
    put_word_sum(alloc, text, words, Word::Late)?;
    put_word_sum(alloc, text, words, Word::Closed)?;
    put_word_sum(alloc, text, words, Word::Passed)
}

// Adds how often a word is told at the end of a text.
#[tactic(auto, unfolding(crate::specs::TrailText::word_sum))]
fn put_word_sum(
    alloc: Global,
    text: &mut Vec<u8>,
    words: &[Word],
    word: Word,
) -> Result<(), NoMemory>
    ensures { OnOk result (text.new.items ≡ text.old.items ++ word_sum words.now word) }
{
    put_sum(alloc, text, word.name(), times(words, word))
}

// How often a word is told.
fn times(words: &[Word], word: Word) -> u64
    ensures { result ≡ times word words.now }
{
    words
        .iter()
        .filter(|told| told.place() == word.place())
        .count() as u64
}

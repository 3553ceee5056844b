//! An entry on the heap.
ghost use Rattle.std.specs.Prelude.{◌≡◌, is_some, IfOk, IfErr};
ghost use Rattle.blot_command.specs.Kinds.{trade_of};

use blot_types::{Command, Entry};
use std::alloc::Global;
use std::marker::Model;

/// An entry on the heap, so that it moves as a pointer does. A contract sees it as the entry.
#[derive(Drop)]
pub struct BoxedEntry {
    entry: Box<Entry>,
}

impl Model for BoxedEntry {
    ghost use Rattle.blot_types.specs.declared.command.Entry.{Entry};

    ghost Value = { Entry };

    ghost view = { λ boxed. boxed.entry.value };
}

impl BoxedEntry {
    /// Puts an entry on the heap, or hands it back where memory runs out.
    pub fn new(alloc: Global, entry: Entry) -> Result<BoxedEntry, Entry>
        ensures ok { IfOk result (λ boxed. boxed ≡ entry) }
        ensures err { IfErr result (λ back. back ≡ entry) }
    {
        match Box::new(alloc, entry) {
            Ok(entry) => Ok(BoxedEntry { entry }),
            Err(failed) => Err(failed.value),
        }
    }

    /// The entry.
    pub fn as_entry(&self) -> &Entry
        ensures { result.now ≡ self.now }
    {
        &self.entry
    }

    /// The entry under a number, where it is.
    pub(crate) fn renumbered(self, number: u64) -> BoxedEntry
        ensures { result ≡ record self { number = number } }
    {
        let mut entry = self.entry;
        entry.number = number;
        BoxedEntry { entry }
    }

    /// Whether it is a Trade's, as nearly every entry is.
    pub(crate) fn is_trade(&self) -> bool
        ensures { result ≡ is_some (trade_of self.now.command) }
    {
        matches!(&self.entry.command, Command::Trade(_))
    }

    /// The entry, off the heap.
    pub fn into_entry(self) -> Entry
        ensures { result ≡ self }
    {
        Box::into_inner(self.entry)
    }
}

//! The live list of a book, copied.
ghost use Rattle.std.specs.Prelude.{◌≡◌, IsTrue};
ghost use Rattle.blot_types.specs.Legal.{is_book};
ghost use Rattle.blot_command.specs.Standings.{standings_of};

use crate::{Reported, Standing, Told};
use blot_types::Entry;
use std::alloc::{AllocError as NoMemory, Global};
use std::marker::Model;

/// The live list of a book as it was when the snapshot was taken, and what each of its entries came to. A contract sees it as that
/// list, which is always legal.
#[derive(Drop)]
pub struct Snapshot {
    entries: Vec<Entry>,
    standings: Vec<Standing>,
}

impl Model for Snapshot {
    ghost use Rattle.std.specs.Prelude.{◌≡◌, List, IsTrue};
    ghost use Rattle.blot_types.specs.declared.command.Entry.{Entry};
    ghost use Rattle.blot_types.specs.Legal.{is_book};
    ghost use Rattle.blot_command.specs.Standings.{standings_of};

    ghost Value = { List Entry };

    ghost view = { λ snapshot. snapshot.entries.items };

    ghost invariant = { λ snapshot. IsTrue (is_book snapshot.entries.items) × (snapshot.standings.items ≡ standings_of snapshot.entries.items) };
}

impl Snapshot {
    /// The snapshot of a list, which is a book, with what its entries come to.
    pub(crate) fn of(entries: Vec<Entry>, standings: Vec<Standing>) -> Snapshot
        requires book { IsTrue (is_book entries.items) }
        requires standings { standings.items ≡ standings_of entries.items }
        ensures { result ≡ entries.items }
    {
        Snapshot { entries, standings }
    }

    /// The live entries, in rising order of number.
    pub fn entries(&self) -> &[Entry]
        ensures entries { result.now ≡ self.now }
        ensures book { IsTrue (is_book self.now) }
    {
        &self.entries
    }
}

impl Reported for Snapshot {
    ghost use Rattle.std.specs.Prelude.{List};
    ghost use Rattle.blot_types.specs.declared.command.Entry.{Entry};

    ghost list_of = { λ snapshot. snapshot };

    fn standings(&self, alloc: Global) -> Result<Vec<Standing>, NoMemory> {
        self.standings.iter().copied().collect(alloc)
    }

    fn told(&self, alloc: Global, standings: &[Standing]) -> Result<Vec<Told<'_>>, NoMemory> {
        let mut told = Vec::with_capacity(alloc, self.entries.len())?;
        for (place, entry) in self.entries.iter().enumerate() {
            told.push(Told::of(entry, standings[place]))?;
        }
        Ok(told)
    }
}

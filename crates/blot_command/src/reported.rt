//! What a report is made of.
ghost use Rattle.std.specs.Prelude.{◌≡◌, IsTrue, IfOk};
ghost use Rattle.blot_types.specs.Legal.{is_book};
ghost use Rattle.blot_command.specs.Standings.{standings_of, told_of};

use crate::Standing;
use blot_types::Entry;
use std::alloc::{AllocError as NoMemory, Global};
use std::marker::Model;

/// A book, or a snapshot of one: what a report is made of.
pub trait Reported {
    ghost use Rattle.std.specs.Prelude.{List};
    ghost use Rattle.blot_types.specs.declared.command.Entry.{Entry};

    /// Its live list.
    ghost list_of: { Self → List Entry };

    /// What each of its entries comes to, one after the other. An error is out of memory.
    fn standings(&self, alloc: Global) -> Result<Vec<Standing>, NoMemory>
        ensures { IfOk result (λ standings. standings.items ≡ standings_of (list_of self.now)) };

    /// Its entries, each with what it comes to, where these are their standings. An error is out of memory.
    fn told(&self, alloc: Global, standings: &[Standing]) -> Result<Vec<Told<'_>>, NoMemory>
        requires { standings.now ≡ standings_of (list_of self.now) }
        ensures told { IfOk result (λ told. told.items ≡ told_of (list_of self.now)) }
        ensures book { IsTrue (is_book (list_of self.now)) };
}

/// An entry of a live list, with what it comes to there.
#[derive(Drop)]
pub struct Told<'a> {
    entry: &'a Entry,
    standing: Standing,
}

impl<'a> Model for Told<'a> {
    ghost use Rattle.blot_command.specs.Standings.{Told};

    ghost Value = { Told };

    ghost view = { λ told. record { entry = told.entry.now; standing = told.standing } };
}

impl<'a> Told<'a> {
    /// An entry that comes to this.
    pub(crate) fn of(entry: &'a Entry, standing: Standing) -> Told<'a>
        ensures { result ≡ record { entry = entry.now; standing = standing } }
    {
        Told { entry, standing }
    }

    /// The entry.
    pub fn entry(&self) -> &'a Entry
        ensures { result.now ≡ self.now.entry }
    {
        self.entry
    }

    /// What it comes to.
    pub fn standing(&self) -> Standing
        ensures { result ≡ self.now.standing }
    {
        self.standing
    }
}

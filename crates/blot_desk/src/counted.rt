//! What is under the lock of a desk.
ghost use Rattle.std.specs.Prelude.{◌≡◌, Err, IfOk, OnErr, OnOk, length, true};
ghost use Rattle.blot_desk.specs.Keeping.{SameKept};
ghost use Rattle.blot_desk.specs.Makers.{IsFoundBy, makers_of};
ghost use Rattle.blot_desk.specs.Questions.{found_of};

use crate::makers::Makers;
use crate::{Found, Held, KeepFault, Keeper, Question};
use blot_types::Text64;
use std::alloc::{AllocError as NoMemory, Global};
use std::marker::Model;
use std::sync::ledger::{Book, Ledger};

/// The book with its history, the count of all receipts, who made the commands, and what keeps the events. A contract sees the book with its
/// history, the makers, and the keeper. There are as many receipts as events are recorded, the recorded events are kept, asks aside, and
/// each command has its maker.
#[derive(Drop)]
pub(crate) struct Counted<L: Ledger, K: Keeper> {
    pub(crate) held: Held,
    pub(crate) book: Book<L>,
    pub(crate) makers: Makers,
    pub(crate) keeper: K,
}

impl<L: Ledger, K: Keeper> Model for Counted<L, K> {
    ghost use Rattle.std.specs.Prelude.{◌≡◌, length};
    ghost use Rattle.blot_desk.specs.Keeping.{Under, kept_events};
    ghost use Rattle.blot_desk.specs.Makers.{AreMakers};

    ghost Value = { Under K };

    ghost view = { λ counted. record { desk = counted.held; makers = counted.makers.makers; keeper = counted.keeper } };

    ghost invariant = { λ counted. (length counted.held.history ≡ counted.book.total)
        × (K.IsKept → K.events counted.keeper ≡ kept_events counted.held.history)
        × AreMakers counted.makers.makers counted.held };
}

impl<L: Ledger, K: Keeper> Counted<L, K> {
    /// Puts a record that spells no event behind the others.
    pub(crate) fn note(&mut self, text: &[u8]) -> Result<(), KeepFault>
        requires { K.spells_none text.now }
        ensures desk { self.new.desk ≡ self.old.desk }
        ensures makers { self.new.makers ≡ self.old.makers }
        ensures same { SameKept K.events K.found K.durable K.is_broken self.old.keeper self.new.keeper }
        ensures broken { result ≡ Err KeepFault.Broken → K.is_broken self.new.keeper ≡ true }
    {
        self.keeper.keep_other(text)
    }

    /// Makes all events durable that are kept.
    pub(crate) fn sync(&mut self) -> Result<(), KeepFault>
        ensures durable { OnOk result (K.durable self.new.keeper ≡ length (K.events self.new.keeper)) }
        ensures events { K.events self.new.keeper ≡ K.events self.old.keeper }
        ensures desk { self.new.desk ≡ self.old.desk }
        ensures makers { self.new.makers ≡ self.old.makers }
        ensures breaks { OnErr result (K.is_broken self.new.keeper ≡ true) }
    {
        self.keeper.sync()
    }

    /// What a question is answered, and who made each row of the answer. An error is out of memory.
    pub(crate) fn look_by(
        &self,
        alloc: Global,
        question: &Question,
    ) -> Result<(Found, Vec<Text64>), NoMemory>
        ensures found { IfOk result (λ found. found.0 ≡ found_of self.now.desk question.now) }
        ensures names { IfOk result (λ found. found.1.items ≡ makers_of self.now.makers found.0) }
        ensures by { IfOk result (λ found. IsFoundBy question.now found.0 found.1.items) }
    {
        // There are as many makers as commands.
        let _ = &self.book;
        let found = self.held.look(question)?;
        let names = self.makers.of(alloc, &found)?;
        Ok((found, names))
    }
}

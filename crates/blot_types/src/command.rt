//! What changes the book, and the record of it.
ghost use Rattle.std.specs.Prelude.{◌≡◌, IfOk, option_copied, option_map};
ghost use Rattle.blot_types.specs.Allocations.{allocation_of};
ghost use Rattle.blot_types.specs.Refusals.{withdrawn_by, exec_key, alloc_key, alloc_reference, terms_of, listed_by, exec_references};

use crate::{AllocKey, ExecKey, Fill, Link, Role, Terms, Version};
use std::alloc::{AllocError as NoMemory, Global};
use std::slice;

/// A fill that a broker reports: an Execution Report with ExecType(150) `F`.
#[derive(Clone, Copy, Debug, PartialEq, Eq)]
pub struct Trade {
    pub key: ExecKey,
    pub fill: Fill,
}

/// A broker's correction of an execution: an Execution Report with ExecType(150) `G`. It brings a whole
/// new version, whose order, account, symbol, side, size, quantity, price and day are all its own.
#[derive(Clone, Copy, Debug, PartialEq, Eq)]
pub struct Correct {
    pub key: ExecKey,
    /// The Trade, or any Correct of its chain: ExecRefID(19).
    pub reference: ExecKey,
    pub fill: Fill,
}

/// A broker's bust of an execution, with all its corrections: an Execution Report with ExecType(150) `H`.
#[derive(Clone, Copy, Debug, PartialEq, Eq)]
pub struct Bust {
    pub key: ExecKey,
    /// The Trade, or any Correct of its chain: ExecRefID(19).
    pub reference: ExecKey,
}

/// A block of executions booked to accounts: an Allocation Instruction with AllocTransType(71) `0`.
#[derive(Debug, PartialEq, Eq, Drop)]
pub struct AllocNew {
    pub key: AllocKey,
    pub terms: Terms,
}

/// An allocation in the place of another: an Allocation Instruction with AllocTransType(71) `1`.
#[derive(Debug, PartialEq, Eq, Drop)]
pub struct AllocReplace {
    pub key: AllocKey,
    /// The allocation whose place it takes: RefAllocID(72).
    pub reference: AllocKey,
    pub terms: Terms,
}

/// The end of an allocation: an Allocation Instruction with AllocTransType(71) `2`.
#[derive(Clone, Copy, Debug, PartialEq, Eq)]
pub struct AllocCancel {
    pub key: AllocKey,
    /// The allocation that it ends: RefAllocID(72).
    pub reference: AllocKey,
}

/// What changes the book.
#[derive(Debug, PartialEq, Eq, Drop)]
pub enum Command {
    Trade(Trade),
    Correct(Correct),
    Bust(Bust),
    AllocNew(AllocNew),
    AllocReplace(AllocReplace),
    AllocCancel(AllocCancel),
    /// Takes the entry of this number out of the live list, whatever came later. It is a step, and never an entry.
    Withdraw(u64),
}

impl Terms {
    /// Equal terms. An error is out of memory.
    pub fn try_copy(&self, alloc: Global) -> Result<Terms, NoMemory>
        ensures { IfOk result (λ copy. copy ≡ self.now) }
    {
        let execs = self.execs.try_copy(alloc)?;
        let lines = self.lines.try_copy(alloc)?;
        Ok(Terms {
            symbol: self.symbol,
            sign: self.sign,
            day: self.day,
            block: self.block,
            execs,
            lines,
        })
    }
}

impl Command {
    /// An equal command. An error is out of memory.
    pub fn try_copy(&self, alloc: Global) -> Result<Command, NoMemory>
        ensures { IfOk result (λ copy. copy ≡ self.now) }
    {
        match self {
            Command::Trade(trade) => Ok(Command::Trade(*trade)),
            Command::Correct(correct) => Ok(Command::Correct(*correct)),
            Command::Bust(bust) => Ok(Command::Bust(*bust)),
            Command::AllocNew(new) => {
                let terms = new.terms.try_copy(alloc)?;
                Ok(Command::AllocNew(AllocNew {
                    key: new.key,
                    terms,
                }))
            }
            Command::AllocReplace(replace) => {
                let terms = replace.terms.try_copy(alloc)?;
                Ok(Command::AllocReplace(AllocReplace {
                    key: replace.key,
                    reference: replace.reference,
                    terms,
                }))
            }
            Command::AllocCancel(cancel) => Ok(Command::AllocCancel(*cancel)),
            Command::Withdraw(number) => Ok(Command::Withdraw(*number)),
        }
    }

    /// The execution that the command takes up.
    pub fn exec_key(&self) -> Option<ExecKey>
        ensures { result ≡ exec_key self.now }
    {
        match self {
            Command::Trade(trade) => Some(trade.key),
            Command::Correct(correct) => Some(correct.key),
            Command::Bust(bust) => Some(bust.key),
            Command::AllocNew(_)
            | Command::AllocReplace(_)
            | Command::AllocCancel(_)
            | Command::Withdraw(_) => None,
        }
    }

    /// The allocation that the command takes up.
    pub fn alloc_key(&self) -> Option<AllocKey>
        ensures { result ≡ alloc_key self.now }
    {
        match self {
            Command::Trade(_) | Command::Correct(_) | Command::Bust(_) | Command::Withdraw(_) =>
                None,
            Command::AllocNew(new) => Some(new.key),
            Command::AllocReplace(replace) => Some(replace.key),
            Command::AllocCancel(cancel) => Some(cancel.key),
        }
    }

    /// The allocation that the command refers to, and so ends.
    pub fn alloc_reference(&self) -> Option<AllocKey>
        ensures { result ≡ alloc_reference self.now }
    {
        match self {
            Command::Trade(_)
            | Command::Correct(_)
            | Command::Bust(_)
            | Command::AllocNew(_)
            | Command::Withdraw(_) => None,
            Command::AllocReplace(replace) => Some(replace.reference),
            Command::AllocCancel(cancel) => Some(cancel.reference),
        }
    }

    /// The number of the entry that the command takes out of the live list.
    pub fn withdrawn(&self) -> Option<u64>
        ensures { result ≡ withdrawn_by self.now }
    {
        match self {
            Command::Trade(_)
            | Command::Correct(_)
            | Command::Bust(_)
            | Command::AllocNew(_)
            | Command::AllocReplace(_)
            | Command::AllocCancel(_) => None,
            Command::Withdraw(number) => Some(*number),
        }
    }

    /// The allocation that the command brings.
    pub fn brought_key(&self) -> Option<AllocKey>
        ensures { result ≡ option_map (λ allocation. allocation.key) (allocation_of self.now) }
    {
        match self {
            Command::Trade(_)
            | Command::Correct(_)
            | Command::Bust(_)
            | Command::AllocCancel(_)
            | Command::Withdraw(_) => None,
            Command::AllocNew(new) => Some(new.key),
            Command::AllocReplace(replace) => Some(replace.key),
        }
    }

    /// What the command allocates.
    pub fn terms(&self) -> Option<&Terms>
        ensures { option_copied result ≡ terms_of self.now }
    {
        match self {
            Command::Trade(_)
            | Command::Correct(_)
            | Command::Bust(_)
            | Command::AllocCancel(_)
            | Command::Withdraw(_) => None,
            Command::AllocNew(new) => Some(&new.terms),
            Command::AllocReplace(replace) => Some(&replace.terms),
        }
    }

    /// The executions that the command lists to be allocated.
    pub fn listed(&self) -> &[ExecKey]
        ensures { result.now ≡ listed_by self.now }
    {
        match self.terms() {
            Some(terms) => terms.execs.as_slice(),
            None => &[],
        }
    }

    /// The executions that the command refers to: that of a Correct or a Bust, those that an allocation lists.
    pub fn exec_references(&self) -> &[ExecKey]
        ensures { result.now ≡ exec_references self.now }
    {
        match self {
            Command::Correct(correct) => slice::from_ref(&correct.reference),
            Command::Bust(bust) => slice::from_ref(&bust.reference),
            Command::Trade(_)
            | Command::AllocNew(_)
            | Command::AllocReplace(_)
            | Command::AllocCancel(_)
            | Command::Withdraw(_) => self.listed(),
        }
    }
}

/// An accepted command with its number.
#[derive(Debug, PartialEq, Eq, Drop)]
pub struct Entry {
    /// The number that the command was taken under: no other entry has it.
    pub number: u64,
    pub command: Command,
}

impl Entry {
    ghost use Rattle.blot_types.specs.Survivors.{link_of, version_of};

    /// An equal entry. An error is out of memory.
    pub fn try_copy(&self, alloc: Global) -> Result<Entry, NoMemory>
        ensures { IfOk result (λ copy. copy ≡ self.now) }
    {
        let command = self.command.try_copy(alloc)?;
        Ok(Entry {
            number: self.number,
            command,
        })
    }

    /// The entry as the chains see it, if it is one of an execution.
    pub fn link(&self) -> Option<Link>
        ensures { result ≡ link_of self.now }
    {
        let (key, role) = match &self.command {
            Command::Trade(trade) => (trade.key, Role::Begins),
            Command::Correct(correct) => (correct.key, Role::Corrects(correct.reference)),
            Command::Bust(bust) => (bust.key, Role::Busts(bust.reference)),
            Command::AllocNew(_)
            | Command::AllocReplace(_)
            | Command::AllocCancel(_)
            | Command::Withdraw(_) => return None,
        };
        Some(Link {
            number: self.number,
            key,
            role,
        })
    }

    /// The version of an execution that the entry brings, if it brings one: a Trade or a Correct does.
    pub fn version(&self) -> Option<Version>
        ensures { result ≡ version_of self.now }
    {
        let (key, fill) = match &self.command {
            Command::Trade(trade) => (trade.key, trade.fill),
            Command::Correct(correct) => (correct.key, correct.fill),
            Command::Bust(_)
            | Command::AllocNew(_)
            | Command::AllocReplace(_)
            | Command::AllocCancel(_)
            | Command::Withdraw(_) => return None,
        };
        Some(Version {
            number: self.number,
            key,
            fill,
        })
    }

    /// The fill of that version, without a copy.
    pub fn fill(&self) -> Option<&Fill>
        ensures { option_copied result ≡ option_map (λ version. version.fill) (version_of self.now) }
    {
        match &self.command {
            Command::Trade(trade) => Some(&trade.fill),
            Command::Correct(correct) => Some(&correct.fill),
            Command::Bust(_)
            | Command::AllocNew(_)
            | Command::AllocReplace(_)
            | Command::AllocCancel(_)
            | Command::Withdraw(_) => None,
        }
    }
}

//! What an allocation books, and where.
ghost use Rattle.std.specs.Prelude.{◌≡◌, pos};
ghost use Rattle.blot_types.specs.declared.refused.Refused.TheVariants.{Quantity};
ghost use Rattle.blot_types.specs.Instructions.{brings_allocation, is_reference, reference_of};
ghost use Rattle.blot_types.specs.Refusals.{booked, differs, mismatch};

use crate::fill::is_same_sign;
use crate::{AllocKey, ExecKey, Fill, Items, Refused, Sign, Text64};
use blot_decimal::{Price, Qty, QtySum};
use blot_time::Day;

/// What an allocation books to one account. FIX 4.4 volume 5, NoAllocs(78).
#[derive(Clone, Copy, Debug, PartialEq, Eq)]
pub struct Line {
    /// AllocAccount(79).
    pub account: Text64,
    /// AllocQty(80), in units of 10^-6.
    pub qty: Qty,
    /// AllocPrice(366) or else AvgPx(6), in units of 10^-8.
    pub price: Price,
}

/// What an allocation books: a block of executions, to the accounts of its lines. FIX 4.4 volume 5,
/// Allocation Instruction.
#[derive(Debug, PartialEq, Eq, Drop)]
pub struct Terms {
    pub symbol: Text64,
    pub sign: Sign,
    /// The day of the allocation: TradeDate(75).
    pub day: Day,
    /// The quantity of the block: Quantity(53), in units of 10^-6.
    pub block: Qty,
    /// The executions of the block, each by the Trade or any Correct of its chain; 1 to 200 from a message.
    pub execs: Items<ExecKey>,
    /// What goes to each account; 1 to 200 lines from a message.
    pub lines: Items<Line>,
}

impl Terms {
    /// Whether a fill is of another symbol or sign than the terms.
    pub fn differs(&self, fill: &Fill) -> bool
        ensures { result ≡ differs self.now fill.now }
    {
        !(fill.symbol == self.symbol && is_same_sign(fill.sign, self.sign))
    }

    /// Why the terms are refused where the listed executions come to a quantity, in units of 10^-6: the block's is
    /// another, or else what the lines book is.
    pub fn mismatch(&self, wanted: i128) -> Option<Refused>
        ensures { result ≡ mismatch wanted (pos self.now.block) (booked self.now.lines) }
    {
        let block = i128::from(self.block.units());
        if block != wanted {
            return Some(quantity(wanted, block));
        }
        let booked = booked(self.lines.as_slice());
        if booked != wanted {
            return Some(quantity(wanted, booked));
        }
        None
    }
}

// The quantity that lines book, in units of 10^-6.
fn booked(lines: &[Line]) -> i128
    ensures { result ≡ booked lines.now }
{
    let mut sum = 0;
    for line in lines {
        sum += i128::from(line.qty.units());
    }
    sum
}

// The refusal of a quantity found in place of the one wanted.
fn quantity(wanted: i128, found: i128) -> Refused
    ensures { result ≡ Quantity wanted found }
{
    Refused::Quantity(QtySum::from_units(wanted), QtySum::from_units(found))
}

/// What an instruction does to the allocations: it brings one, brings one in the place of another, or ends
/// one. FIX 4.4 volume 5, AllocTransType(71) and RefAllocID(72).
#[derive(Clone, Copy, Debug, PartialEq, Eq)]
pub enum AllocRole {
    /// Brings an allocation.
    Allocates,
    /// Brings an allocation in the place of this one.
    Replaces(AllocKey),
    /// Ends this allocation.
    Cancels(AllocKey),
}

impl AllocRole {
    /// Whether an instruction of this role brings an allocation.
    pub fn brings_allocation(&self) -> bool
        ensures { result ≡ brings_allocation self.now }
    {
        match self {
            AllocRole::Allocates | AllocRole::Replaces(_) => true,
            AllocRole::Cancels(_) => false,
        }
    }

    /// The allocation that an instruction of this role refers to.
    pub fn reference(&self) -> Option<AllocKey>
        ensures { result ≡ reference_of self.now }
    {
        match self {
            AllocRole::Allocates => None,
            AllocRole::Replaces(reference) | AllocRole::Cancels(reference) => Some(*reference),
        }
    }
}

/// Whether a key is the one referred to.
pub fn is_reference(reference: Option<AllocKey>, key: &AllocKey) -> bool
    ensures { result ≡ is_reference reference key.now }
{
    match reference {
        None => false,
        Some(reference) => reference == *key,
    }
}

/// An entry as the allocations see it.
#[derive(Debug, PartialEq, Eq, Drop)]
pub struct Instruction {
    pub number: u64,
    /// The allocation that the entry takes up.
    pub key: AllocKey,
    pub role: AllocRole,
    /// The roots of the executions that it lists: the chains that its allocation names.
    pub roots: Items<ExecKey>,
}

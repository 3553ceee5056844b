//! Why the book refuses a command, and the desk an event.

use crate::ExecKey;
use blot_decimal::QtySum;

/// Why a command is refused: the first of these that applies.
#[derive(Clone, Copy, Debug, PartialEq, Eq)]
pub enum Refused {
    /// The ExecID is taken up by the entry of this number.
    DuplicateExec(u64),
    /// The AllocID is taken up by the entry of this number.
    DuplicateAlloc(u64),
    /// The reference is no AllocNew or AllocReplace of the book.
    UnknownAlloc,
    /// The entry of this number replaced or cancelled the allocation.
    DeadAlloc(u64),
    /// No Trade or Correct of the book has this ExecID.
    UnknownExec(ExecKey),
    /// The entry of this number busted the chain.
    BustedExec(u64),
    /// This execution is of the chain of one that is listed before it.
    RepeatedExec(ExecKey),
    /// The live allocation of this number names the chain.
    ExecTaken(u64),
    /// The last version of this execution has another symbol or sign than the allocation.
    Instrument(ExecKey),
    /// The quantity of the executions, in units of 10^-6, and the block's or the lines' that differs from it.
    Quantity(QtySum, QtySum),
    /// No entry of this number is live.
    NotLive(u64),
    /// Without the entry that is to be withdrawn the list isn't legal: the entry of this number is the first that needs it.
    Needed(u64),
    /// No step is done.
    NothingToUndo,
    /// The newest done step has this other number.
    Moved(u64),
    /// No step is undone.
    NothingToRedo,
}

impl Refused {
    ghost use Rattle.std.specs.Prelude.{◌≡◌};
    ghost use Rattle.blot_types.specs.RefusalNames.{refused_number, refused_name, reject_code};

    /// The number under which a refusal is told. This project's rule.
    pub fn number(self) -> u8
        ensures { result ≡ refused_number self }
    {
        match self {
            Refused::DuplicateExec(_) => 1,
            Refused::DuplicateAlloc(_) => 2,
            Refused::UnknownAlloc => 3,
            Refused::DeadAlloc(_) => 4,
            Refused::UnknownExec(_) => 5,
            Refused::BustedExec(_) => 6,
            Refused::RepeatedExec(_) => 7,
            Refused::ExecTaken(_) => 8,
            Refused::Instrument(_) => 9,
            Refused::Quantity(..) => 10,
            Refused::NotLive(_) => 11,
            Refused::Needed(_) => 12,
            Refused::NothingToUndo => 13,
            Refused::Moved(_) => 14,
            Refused::NothingToRedo => 15,
        }
    }

    /// The name under which a refusal is told: that of the variant.
    pub fn name(self) -> &'static [u8]
        ensures { result.now ≡ refused_name self }
    {
        match self {
            Refused::DuplicateExec(_) => b"DuplicateExec",
            Refused::DuplicateAlloc(_) => b"DuplicateAlloc",
            Refused::UnknownAlloc => b"UnknownAlloc",
            Refused::DeadAlloc(_) => b"DeadAlloc",
            Refused::UnknownExec(_) => b"UnknownExec",
            Refused::BustedExec(_) => b"BustedExec",
            Refused::RepeatedExec(_) => b"RepeatedExec",
            Refused::ExecTaken(_) => b"ExecTaken",
            Refused::Instrument(_) => b"Instrument",
            Refused::Quantity(..) => b"Quantity",
            Refused::NotLive(_) => b"NotLive",
            Refused::Needed(_) => b"Needed",
            Refused::NothingToUndo => b"NothingToUndo",
            Refused::Moved(_) => b"Moved",
            Refused::NothingToRedo => b"NothingToRedo",
        }
    }

    /// AllocRejCode(88) of the refusal of this number: 10 where a listed execution isn't there to be allocated, 1 where
    /// quantities differ, and 7 for any other. FIX 4.4 volume 5; which refusal has which code is this project's rule.
    pub fn reject_code(number: u8) -> u64
        ensures { result ≡ reject_code number }
    {
        match number {
            5 | 6 | 8 => 10,
            10 => 1,
            _ => 7,
        }
    }
}

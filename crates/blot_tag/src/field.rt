//! A field, and why one can't be split off.

use std::error::Error;
use std::fmt;

/// A field of a frame. FIX 4.4 volume 1, "tag=value" syntax.
#[derive(Clone, Copy, Debug, PartialEq, Eq, Hash)]
pub struct Field<'a> {
    /// 1 to 999,999,999.
    pub tag: u32,
    /// The bytes between `=` and SOH. Only a data field's may hold an SOH.
    pub value: &'a [u8],
}

/// Why the next field of a frame can't be split off. FIX 4.4 volume 2, SessionRejectReason(373).
#[derive(Clone, Copy, Debug, PartialEq, Eq, Hash)]
pub enum SplitReason {
    /// There is no `=` before the next SOH, or no tag before it.
    InvalidTagNumber = 0,
    /// A data field doesn't have the length that the field before it says.
    IncorrectDataFormat = 6,
}

/// A field that can't be split off. What stands after it isn't looked at.
#[derive(Clone, Copy, Debug, PartialEq, Eq, Hash)]
pub struct SplitFault {
    /// The data field's tag, or 0 where there is no tag.
    pub tag: u32,
    pub reason: SplitReason,
}

impl fmt::Display for SplitFault {
    ghost use Rattle.std.specs.Prelude.{Some};
    ghost use Rattle.blot_tag.specs.FaultText.{fault_text};

    ghost output = { λ fault. Some (fault_text fault) };

    fn fmt<W: fmt::Write>(&self, f: &mut fmt::Formatter<W>) -> fmt::Result {
        match self.reason {
            SplitReason::InvalidTagNumber => write!(f, "a field has no valid tag"),
            SplitReason::IncorrectDataFormat => {
                let tag = self.tag;
                write!(f, "data field {tag} hasn't the length given before it")
            }
        }
    }
}

impl Error for SplitFault {}

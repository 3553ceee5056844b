//! Why a text is no moment or day.

use std::error::Error;
use std::fmt;

/// Why a text is no moment or no day.
#[derive(Clone, Copy, Debug, PartialEq, Eq)]
pub enum TimeFault {
    /// The text has another shape, or a time of day that no clock shows.
    Format = 1,
    /// The calendar has no such date.
    NoSuchDate = 2,
}

impl fmt::Display for TimeFault {
    ghost use Rattle.std.specs.Prelude.{Some};
    ghost use Rattle.blot_time.specs.FaultText.{fault_text};

    ghost output = { λ fault. Some (fault_text fault) };

    fn fmt<W: fmt::Write>(&self, f: &mut fmt::Formatter<W>) -> fmt::Result {
        f.write_str(match self {
            TimeFault::Format => "not a date or time in FIX's form",
            TimeFault::NoSuchDate => "no such date in the calendar",
        })
    }
}

impl Error for TimeFault {}

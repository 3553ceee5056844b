//! Why a command isn't taken.

use blot_types::Refused;

/// Why a command isn't taken.
#[derive(Clone, Copy, Debug, PartialEq, Eq)]
pub enum ApplyFault {
    /// The book refuses it.
    Refused(Refused),
    /// The book accepts it, and memory ran out.
    NoMemory,
}

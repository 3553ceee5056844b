//! Why a chain of executions isn't taken out.

/// Why a chain of executions isn't taken out of a list.
#[derive(Clone, Copy, Debug, PartialEq, Eq)]
pub enum EraseFault {
    /// No Trade or Correct of the list has the key.
    UnknownExec,
    /// No Bust ended the chain.
    NotBusted,
    /// The entry of this number is the first AllocNew or AllocReplace that lists an execution of the chain.
    Named(u64),
    /// Memory ran out.
    NoMemory,
}

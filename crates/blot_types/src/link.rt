//! What the entries of executions do to their chains.

use crate::ExecKey;

/// What an entry does to the chains of executions: a Trade begins one, a Correct brings it a new version,
/// a Bust ends it. FIX 4.4 volume 4, ExecType(150) and ExecRefID(19).
#[derive(Clone, Copy, Debug, PartialEq, Eq)]
pub enum Role {
    /// Begins a chain.
    Begins,
    /// Brings a whole new version to the chain of this execution.
    Corrects(ExecKey),
    /// Busts the chain of this execution.
    Busts(ExecKey),
}

/// An entry as the chains see it.
#[derive(Clone, Copy, Debug, PartialEq, Eq)]
pub struct Link {
    pub number: u64,
    /// The execution that the entry takes up.
    pub key: ExecKey,
    pub role: Role,
}

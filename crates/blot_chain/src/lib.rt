//! The chains of executions: a Trade begins one, each Correct brings it a new version, a Bust ends it.
//! `Chains` answers which root a key has, which version of a chain is its last, and which Bust ended it.
#![tactic(auto)]

mod cell;
mod cells;
mod chain_link;
mod chains;
mod index;

pub use chains::Chains;

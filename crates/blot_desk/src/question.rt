//! What may be asked of a desk without an event, and what is answered.

use blot_command::{AllocationAnswer, ExecutionAnswer, Rows};
use blot_types::{AllocKey, Entry, ExecKey, Refused};

/// A question. It is no event: nothing is recorded of it.
#[derive(Clone, Copy, Debug, PartialEq, Eq)]
pub enum Question {
    /// The live entry of a number.
    Entry(u64),
    /// The chain of an execution.
    Execution(ExecKey),
    /// An allocation, and what ended it.
    Allocation(AllocKey),
    /// What a withdrawal of the entry of a number would be refused for.
    Needs(u64),
    /// So many of the newest done steps.
    Steps(u16),
    /// So many of the newest refused commands.
    Refusals(u16),
}

/// What a question is answered.
#[derive(Debug, PartialEq, Eq, Drop)]
pub enum Found {
    /// The entry, or none where none of that number is live.
    Entry(Option<Entry>),
    /// What is told of the execution of this key, or none where no entry takes it up.
    Execution(ExecKey, Option<ExecutionAnswer>),
    /// What is told of the allocation of this key, or none where no entry takes it up.
    Allocation(AllocKey, Option<AllocationAnswer>),
    /// Why the withdrawal would be refused, or none where it would be accepted.
    Needs(Option<Refused>),
    /// The steps, the newest first.
    Steps(Rows<StepRow>),
    /// The refused commands, the newest first.
    Refusals(Rows<RefusalRow>),
}

/// A done step.
#[derive(Debug, PartialEq, Eq, Drop)]
pub enum StepRow {
    /// Its entry is live.
    Entry(Entry),
    /// It is a withdrawal, and took out the entry of the second number.
    Withdraw(u64, u64),
    /// A later step withdrew its entry.
    Withdrawn(u64),
}

/// A command that was refused.
#[derive(Clone, Copy, Debug, PartialEq, Eq)]
pub struct RefusalRow {
    /// The place of its event in the history, from 1.
    pub place: u64,
    pub command: CommandKey,
    pub reason: Refused,
}

/// A command by its kind and its own key; a withdrawal by the number that it was to take out.
#[derive(Clone, Copy, Debug, PartialEq, Eq)]
pub enum CommandKey {
    Trade(ExecKey),
    Correct(ExecKey),
    Bust(ExecKey),
    AllocNew(AllocKey),
    AllocReplace(AllocKey),
    AllocCancel(AllocKey),
    Withdraw(u64),
}

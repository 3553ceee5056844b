//! Why a command isn't taken as a step.

use blot_command::Undoable;

/// Why a command isn't taken as a step. The command comes back.
#[derive(Drop)]
pub enum StepFault<C: Undoable> {
    /// The command's own refusal, out of memory among its reasons.
    Refused(C, C::Refusal),
    /// The state accepts the command, and the stack has no room for its step.
    NoMemory(C),
}

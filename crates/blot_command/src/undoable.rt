//! What a command of any kind promises.
ghost use Rattle.std.specs.Prelude.{◌≡◌, ◌≤◌, Some, IfOk, IfErr};
ghost use Rattle.blot_types.specs.declared.TheConstants.{EVENTS_MAX};
ghost use Rattle.blot_command.specs.Undoable.{Meaning, IsLawful, Refuses, Adds, Undoes, TakesOut, AllBelow, numbers_in, IsStep};

use blot_types::EVENTS_MAX;

/// A command that a state accepts or refuses, and that can be undone. What it means is said on the list that
/// a state shows; beside its list a state may keep what taking a step back needs.
pub trait Undoable: Sized + Drop {
    /// What the command changes.
    type State: Drop;
    /// What takes the command back: it holds no state.
    type Inverse: Drop;
    /// Why a state refuses the command, out of memory among the reasons.
    type Refusal: Drop;

    /// The list that a state shows.
    ghost Live: { Type 0 };

    /// What a state shows and keeps, its numbers, what is refused, the list after, the inverse and the list
    /// before.
    ghost meaning: { Meaning Self.State Live Self Self.Inverse Self.Refusal };

    /// Takes the command under a number above all numbers in the state, and hands back its inverse.
    /// Where the list refuses it, or memory runs out, it comes back with the reason, and the state is
    /// as it was.
    fn apply(
        self,
        state: &mut Self::State,
        number: u64,
    ) -> Result<Self::Inverse, (Self, Self::Refusal)>
        requires above { AllBelow number (numbers_in meaning state.old) }
        requires within { number ≤ EVENTS_MAX }
        ensures accepted { IfOk result (λ inverse. IsStep meaning (meaning.list_of state.old) self number inverse (meaning.list_of state.new)) }
        ensures kept { IfOk result (λ inverse. Adds meaning number inverse state.old state.new) }
        ensures refused { IfErr result (Refuses meaning state.old self state.new) };

    /// Takes a command back, by the inverse that it handed out, from a state with the list that it left,
    /// which keeps what the inverse needs, and in which no number came later.
    fn revert(inverse: Self::Inverse, state: &mut Self::State) -> Self
        requires { Undoes meaning inverse state.old }
        ensures list { meaning.list_of state.new ≡ meaning.before (meaning.list_of state.old) inverse }
        ensures command { meaning.command_of (meaning.list_of state.old) inverse ≡ Some result }
        ensures kept { TakesOut meaning inverse state.old state.new };

    /// What stands before what stands after a command is the list itself, and the command comes back.
    ghost lawful: { IsLawful meaning };
}

//! What keeps the events of a desk.
ghost use Rattle.std.specs.Prelude.{◌≡◌, ◌↔◌, ◌≤◌, ◌++◌, ◌^◌, ◌∷◌, [], ℕ, Bool, List, Err, IsErr, OnErr, OnOk, false, length, true};
ghost use Rattle.blot_desk.specs.declared.event.Event.{Event};
ghost use Rattle.blot_desk.specs.Keeping.{IsBeginning, SameKept};

use crate::Event;

/// Why nothing is kept.
#[derive(Clone, Copy, Debug, PartialEq, Eq)]
pub enum KeepFault {
    /// Memory ran out.
    NoMemory,
    /// It couldn't be written, and from then on nothing is kept or made durable.
    Broken,
}

/// What keeps the events of a desk, each by a record that spells it. What a record is, and where it goes, the desk doesn't know.
pub trait Keeper: Sized + Drop {
    /// Whether it keeps any events.
    ghost IsKept: { Type 0 };

    /// The events that it keeps, in their order, durable or not.
    ghost events: { Self → List Event };

    /// How many of them it was opened with.
    ghost found: { Self → ℕ };

    /// How many of them are durable: the first so many.
    ghost durable: { Self → ℕ };

    /// What a crash at this moment may leave of them.
    ghost leaves: { Self → List Event → Type 0 };

    /// What a crash at some moment since it was opened, within a call or between two, might have left.
    ghost left: { Self → List Event → Type 0 };

    /// For how many bytes it has room.
    ghost room: { Self → ℕ };

    /// Whether it couldn't be written.
    ghost is_broken: { Self → Bool };

    /// A record spells an event.
    ghost spells: { List ℕ → Event → Type 0 };

    /// A record spells no event.
    ghost spells_none: { List ℕ → Type 0 };

    /// Makes room for a record.
    fn reserve(&mut self, text: &[u8]) -> Result<(), KeepFault>
        ensures room { OnOk result (length text.now ≤ room self.new) }
        ensures broken { (result ≡ Err KeepFault.Broken) ↔ (is_broken self.old ≡ true) }
        ensures same { SameKept events found durable is_broken self.old self.new };

    /// Keeps an event by its record, for which there is room. It isn't durable yet.
    fn keep(&mut self, text: &[u8], event: &Event)
        requires room { length text.now ≤ room self.old }
        requires spelled { spells text.now event.now }
        ensures events { IsKept → events self.new ≡ events self.old ++ event.now ∷ [] }
        ensures found { found self.new ≡ found self.old }
        ensures durable { durable self.new ≡ durable self.old }
        ensures broken { is_broken self.new ≡ is_broken self.old };

    /// Puts a record that spells no event behind the others.
    fn keep_other(&mut self, text: &[u8]) -> Result<(), KeepFault>
        requires { spells_none text.now }
        ensures broken { (result ≡ Err KeepFault.Broken) ↔ (is_broken self.old ≡ true) }
        ensures same { SameKept events found durable is_broken self.old self.new };

    /// Makes all that it keeps durable. Where that fails it is broken, and no later call succeeds.
    fn sync(&mut self) -> Result<(), KeepFault>
        ensures durable { OnOk result (durable self.new ≡ length (events self.new)) }
        ensures never_less { durable self.old ≤ durable self.new }
        ensures events { events self.new ≡ events self.old }
        ensures found { found self.new ≡ found self.old }
        ensures breaks { OnErr result (is_broken self.new ≡ true) }
        ensures broken { is_broken self.old ≡ true → IsErr result };

    /// A crash leaves a beginning of the events: now with all that are durable, and at each moment since it was opened with all that it
    /// was opened with.
    fn ever(&self)
        ensures now { (events_left : List Event) → leaves self.now events_left → IsBeginning (durable self.now) (events self.now) events_left }
        ensures ever { (events_left : List Event) → left self.now events_left → IsBeginning (found self.now) (events self.now) events_left };
}

/// It keeps nothing: that of a desk without a journal.
#[derive(Clone, Copy, Debug, Drop)]
pub struct NoKeeper {}

impl Keeper for NoKeeper {
    ghost IsKept = { ⊥ };

    ghost events = { λ _. [] };

    ghost found = { λ _. 0 };

    ghost durable = { λ _. 0 };

    ghost leaves = { λ _ _. ⊥ };

    ghost left = { λ _ _. ⊥ };

    ghost room = { λ _. 2 ^ 64 };

    ghost is_broken = { λ _. false };

    ghost spells = { λ _ _. Unit {0} };

    ghost spells_none = { λ _. Unit {0} };

    fn reserve(&mut self, _text: &[u8]) -> Result<(), KeepFault> {
        Ok(())
    }

    fn keep(&mut self, _text: &[u8], _event: &Event) {}

    fn keep_other(&mut self, _text: &[u8]) -> Result<(), KeepFault> {
        Ok(())
    }

    fn sync(&mut self) -> Result<(), KeepFault> {
        Ok(())
    }

    fn ever(&self) {}
}

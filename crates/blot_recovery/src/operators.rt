//! The operators of a journal, as a text leaves them.
ghost use Rattle.std.specs.Prelude.{All, slice_get, ◌≡◌, ◌+◌, ◌<◌, ℕ, List, [], ◌∷◌, false, length, IfErr, IfOk, IfSome, None, OnOk, Option, Some, option_to_list};
ghost use Rattle.std.specs.List.{list_any};
ghost use Rattle.blot_types.specs.Keys.{same_text};
ghost use Rattle.blot_diary.specs.Events.{noted_of};
ghost use Rattle.blot_diary.specs.Keeping.{IsKept};
ghost use Rattle.blot_recovery.specs.Faults.{IsHere};
ghost use Rattle.blot_recovery.specs.Parties.{AreKeptOperators, GivesSeat, IsFirst, operator_names};
ghost use Rattle.blot_recovery.specs.Refusals.{IsOfOperators, IsOfSeats};
ghost use Rattle.blot_recovery.specs.Taking.{IsAskedBy, KeepsLast, TakesUp};

use crate::RecoverFault;
use crate::parties::KeptOperator;
use blot_desk::{Opening, Seat};
use blot_diary::Kept;
use blot_types::Text64;
use std::alloc::{AllocError as NoMemory, Global};
use std::sync::ledger::Ledger;

/// The seats of operators at the desk of a journal: those of the sixteen who may come over a socket, and that of the one at standard input.
/// This project's rule.
pub const OPERATOR_SEATS: u32 = 17;

/// The operators of a journal, each as its text leaves it, in the order in which they came; and the seats that no operator has yet.
#[derive(Drop)]
pub struct KeptOperators<L: Ledger> {
    pub named: Vec<KeptOperator<L>>,
    pub spare: Vec<Seat<L>>,
}

impl<L: Ledger> KeptOperators<L> {
    /// Seats that no operator has yet, but for the last of them, if an operator is named.
    pub(crate) fn new(
        alloc: Global,
        first: Option<Text64>,
        seats: Vec<Seat<L>>,
    ) -> Result<KeptOperators<L>, NoMemory>
        requires empty { All (λ receipts. receipts ≡ []) seats.items }
        ensures first { IfOk result (λ made. IsFirst first (operator_names made.named.items)) }
        ensures kept { IfOk result (AreKeptOperators []) }
        ensures named { IfOk result (λ made. operator_names made.named.items ≡ option_to_list first) }
        ensures total { IfOk result (λ made. length made.named.items + length made.spare.items ≡ length seats.items) }
    {
        match first {
            Some(name) => with_first(alloc, name, seats),
            None => Ok(KeptOperators {
                named: Vec::new(alloc),
                spare: seats,
            }),
        }
    }

    /// Takes a frame that is an event of this operator's: it goes to the desk by the operator's seat.
    pub(crate) fn take(
        &mut self,
        opening: &mut Opening<L>,
        name: Text64,
        kept: Kept,
        place: usize,
    ) -> Result<(), RecoverFault>
        requires kept { IsKept kept }
        requires asked { IsAskedBy name kept.content }
        ensures opening { OnOk result (TakesUp opening.old opening.new (noted_of kept)) }
        ensures seat { OnOk result (GivesSeat name self.old self.new) }
        ensures refused { IfErr result (IsOfOperators self.old name opening.old (noted_of kept)) }
        ensures operators { OnOk result ((text more : List ℕ) → KeepsLast text kept more → AreKeptOperators text self.old → AreKeptOperators more self.new) }
        ensures first { OnOk result ((first : Option (List ℕ)) → IsFirst first (operator_names self.old.named.items) → IsFirst first (operator_names self.new.named.items)) }
        ensures fault { IfErr result (IsHere place) }
    {
        let at = self.place_for(name, place)?;
        self.named[at].take(opening, kept, place)
    }

    // The place of an operator of this name, who is put behind the others where none came yet. Damaged where no seat is left.
    fn place_for(&mut self, name: Text64, place: usize) -> Result<usize, RecoverFault>
        ensures within { IfOk result (λ at. at < length self.new.named.items) }
        ensures name { IfOk result (λ at. slice_get (operator_names self.new.named.items) at ≡ Some name) }
        ensures kept { OnOk result ((text : List ℕ) → AreKeptOperators text self.old → AreKeptOperators text self.new) }
        ensures seat { OnOk result (GivesSeat name self.old self.new) }
        ensures seatless { IfErr result (IsOfSeats self.old name) }
        ensures first { OnOk result ((first : Option (List ℕ)) → IsFirst first (operator_names self.old.named.items) → IsFirst first (operator_names self.new.named.items)) }
        ensures fault { IfErr result (IsHere place) }
    {
        match place_of(&self.named, &name) {
            Some(at) => Ok(at),
            None => self.put_behind(name, place),
        }
    }

    // Puts an operator of this name, of whom none came yet, behind the others: the place. Damaged where no seat is left.
    fn put_behind(&mut self, name: Text64, place: usize) -> Result<usize, RecoverFault>
        requires { list_any (same_text name) (operator_names self.old.named.items) ≡ false }
        ensures within { IfOk result (λ at. at < length self.new.named.items) }
        ensures name { IfOk result (λ at. slice_get (operator_names self.new.named.items) at ≡ Some name) }
        ensures kept { OnOk result ((text : List ℕ) → AreKeptOperators text self.old → AreKeptOperators text self.new) }
        ensures seat { OnOk result (GivesSeat name self.old self.new) }
        ensures seatless { IfErr result (IsOfSeats self.old name) }
        ensures first { OnOk result ((first : Option (List ℕ)) → IsFirst first (operator_names self.old.named.items) → IsFirst first (operator_names self.new.named.items)) }
        ensures fault { IfErr result (IsHere place) }
    {
        let Some(seat) = self.spare.pop() else {
            return Err(RecoverFault::Damaged(place));
        };
        let at = self.named.len();
        let Ok(()) = self.named.push(KeptOperator::new(name, seat)) else {
            return Err(RecoverFault::NoMemory);
        };
        Ok(at)
    }
}

// Seats of which the last is this operator's.
fn with_first<L: Ledger>(
    alloc: Global,
    name: Text64,
    seats: Vec<Seat<L>>,
) -> Result<KeptOperators<L>, NoMemory>
    requires empty { All (λ receipts. receipts ≡ []) seats.items }
    ensures first { IfOk result (λ made. slice_get (operator_names made.named.items) 0 ≡ Some name) }
    ensures kept { IfOk result (AreKeptOperators []) }
    ensures named { IfOk result (λ made. operator_names made.named.items ≡ name ∷ []) }
    ensures total { IfOk result (λ made. length made.named.items + length made.spare.items ≡ length seats.items) }
{
    let mut spare = seats;
    let Some(seat) = spare.pop() else {
        return Err(NoMemory);
    };
    let mut named = Vec::new(alloc);
    named.push(KeptOperator::new(name, seat))?;
    Ok(KeptOperators { named, spare })
}

// Where the operator of this name stands among some.
fn place_of<L: Ledger>(operators: &[KeptOperator<L>], name: &Text64) -> Option<usize>
    ensures within { IfSome result (λ at. at < length operators.now) }
    ensures name { IfSome result (λ at. slice_get (operator_names operators.now) at ≡ Some name.now) }
    ensures none { result ≡ None → list_any (same_text name.now) (operator_names operators.now) ≡ false }
{
    for (at, kept) in operators.iter().enumerate() {
        if kept.name == *name {
            return Some(at);
        }
    }
    None
}

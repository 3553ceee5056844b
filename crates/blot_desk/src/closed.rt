//! A desk at the end of the day, and the receipts compared with its history.
ghost use Rattle.std.specs.Prelude.{◌≡◌, IfOk, IfErr, length};
ghost use Rattle.blot_desk.specs.Desk.{IsRun};
ghost use Rattle.blot_desk.specs.Receipts.{IsSettled};

use crate::settling::is_settled;
use crate::{DeskFault, Held, Seat};
use std::alloc::Global;
use std::sync::ledger::{Book, Ledger, Total};

/// What a desk held at the end. The ledger counts as many receipts as events are recorded.
#[derive(Drop)]
pub struct Closed<L: Ledger> {
    pub held: Held,
    alloc: Global,
    total: Total<L>,
    ghost counted: { length held.history ≡ total.amount },
}

/// A desk whose history is that of all receipts: each answer that anyone got stands there, at its place, once.
#[derive(Drop)]
pub struct Settled<L: Ledger> {
    pub held: Held,
    pub seats: Vec<Seat<L>>,
}

impl<L: Ledger> Closed<L> {
    /// What a desk held, of which there are as many receipts as were counted.
    pub(crate) fn of(alloc: Global, held: Held, book: Book<L>) -> Closed<L>
        requires { length held.history ≡ book.total }
        ensures { result.held ≡ held }
    {
        Closed {
            held,
            alloc,
            total: book.close(),
        }
    }

    /// Lays the receipts of the seats beside the history: `Unsettled` where they don't agree, as where a seat with receipts is
    /// missing. An error hands all back.
    pub fn settle(
        self,
        seats: Vec<Seat<L>>,
    ) -> Result<Settled<L>, (DeskFault, Closed<L>, Vec<Seat<L>>)>
        ensures settled { IfOk result (λ settled. IsSettled settled.held.history settled.seats.items) }
        ensures same { IfOk result (λ settled. (settled.held ≡ self.held) × (settled.seats ≡ seats)) }
        ensures run { IfOk result (λ settled. IsRun settled.held) }
        ensures unsettled { IfErr result (λ refused. refused.0 ≡ DeskFault.Unsettled → IsSettled self.held.history seats.items → ⊥) }
        ensures faults { IfErr result (λ refused. (refused.0 ≡ DeskFault.Full) → ⊥) }
        ensures unbroken { IfErr result (λ refused. (refused.0 ≡ DeskFault.Broken) → ⊥) }
        ensures back { IfErr result (λ refused. (refused.1 ≡ self) × (refused.2 ≡ seats)) }
    {
        match is_settled(self.alloc, self.held.history(), &seats) {
            Ok(true) => Ok(Settled {
                held: self.held,
                seats,
            }),
            Ok(false) => Err((DeskFault::Unsettled, self, seats)),
            Err(_) => Err((DeskFault::NoMemory, self, seats)),
        }
    }
}

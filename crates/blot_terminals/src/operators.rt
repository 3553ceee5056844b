//! The operators of a day, each with a seat.
ghost use Rattle.std.specs.Prelude.{All, ◌≡◌, ◌≢◌, ◌↔◌, ◌⊎◌, ◌≤◌, [], Err, IfOk, IfSome, None, OnErr, OnOk, Some, length};
ghost use Rattle.std.specs.Map.{lookup, set_value};
ghost use Rattle.blot_types.specs.Keys.{same_text};
ghost use Rattle.blot_operator.specs.Seats.{Named};
ghost use Rattle.blot_terminals.specs.Staff.{AreOwnSeats, Comes, Grows, IsOn, IsSeatOf, Leaves, first_seat, with_seat};

use blot_desk::Seat;
use blot_operator::OperatorSeat;
use blot_types::Text64;
use indexmap::IndexMap;
use std::alloc::{AllocError as NoMemory, Global};
use std::marker::Model;
use std::sync::ledger::Ledger;
use std::sync::{Mutex, Wait};

/// The most operators of a day. This project's rule.
pub const OPERATORS_MAX: usize = 16;

/// Why a name has no seat.
#[derive(Clone, Copy, Debug, PartialEq, Eq)]
pub enum NameFault {
    /// The operator of that name is on.
    Taken,
    /// As many operators came as a day has.
    Full,
    /// Memory ran out.
    NoMemory,
}

// The seats that nobody has yet, and the operators that came, each with the seat, which is none while the operator is on.
#[derive(Drop)]
struct OperatorTable<L: Ledger> {
    own: Text64,
    spare: Vec<Seat<L>>,
    named: IndexMap<Text64, Option<OperatorSeat<L>>>,
}

impl<L: Ledger> Model for OperatorTable<L> {
    ghost use Rattle.std.specs.Prelude.{All, ◌≡◌, []};
    ghost use Rattle.blot_terminals.specs.Staff.{AreOwnSeats, Staff};

    ghost Value = { Staff };

    ghost view = { λ table. record { spare = table.spare.items; named = table.named.entries } };

    ghost invariant = { λ table. AreOwnSeats table.named.entries × All (λ receipts. receipts ≡ []) table.spare.items };
}

impl<L: Ledger> OperatorTable<L> {
    // Hands out the seat of an operator, who is on then. One who never came gets a seat that nobody has yet.
    fn take(&mut self, name: Text64) -> Result<OperatorSeat<L>, NameFault>
        ensures taken { (result ≡ Err NameFault.Taken) ↔ (lookup (same_text name) self.old.named ≡ Some None) }
        ensures full { (result ≡ Err NameFault.Full)
            ↔ ((lookup (same_text name) self.old.named ≡ None) × ((OPERATORS_MAX ≤ length self.old.named) ⊎ (self.old.spare ≡ []))) }
        ensures seat { IfOk result (λ seat. IsSeatOf name (lookup (same_text name) self.old.named) seat) }
        ensures of_name { IfOk result (λ seat. seat.name ≡ name) }
        ensures on { OnOk result (IsOn name (lookup (same_text name) self.old.named) self.old self.new) }
        ensures err { OnErr result (self.new ≡ self.old) }
    {
        match take_known(&mut self.named, &name) {
            Some(Some(seat)) => Ok(seat),
            Some(None) => Err(NameFault::Taken),
            None => self.take_new(name),
        }
    }

    // Hands out a seat that nobody has yet, to an operator who never came.
    fn take_new(&mut self, name: Text64) -> Result<OperatorSeat<L>, NameFault>
        ensures taken { result ≢ Err NameFault.Taken }
        ensures full { (result ≡ Err NameFault.Full) ↔ ((OPERATORS_MAX ≤ length self.old.named) ⊎ (self.old.spare ≡ [])) }
        ensures seat { IfOk result (λ seat. seat ≡ first_seat name) }
        ensures comes { OnOk result (Comes name self.old self.new) }
        ensures err { OnErr result (self.new ≡ self.old) }
    {
        if self.named.len() >= OPERATORS_MAX {
            return Err(NameFault::Full);
        }
        if self.spare.is_empty() {
            return Err(NameFault::Full);
        }
        let Ok(_) = self.named.insert(name, None) else {
            return Err(NameFault::NoMemory);
        };
        let seat = self.spare.pop().unwrap();
        Ok(OperatorSeat::new(seat, self.own, name, 0))
    }

    // Takes a seat back, under its own operator's name. Who never came has no place there.
    fn give_back(&mut self, seat: OperatorSeat<L>)
        ensures { self.new ≡ with_seat seat self.old }
    {
        put_seat(&mut self.named, seat);
    }
}

// What stands under a name: the seat, which is none from then on.
fn take_known<L: Ledger>(
    named: &mut IndexMap<Text64, Option<OperatorSeat<L>>>,
    name: &Text64,
) -> Option<Option<OperatorSeat<L>>>
    requires own { AreOwnSeats named.old.entries }
    ensures found { result ≡ lookup (same_text name.now) named.old.entries }
    ensures of_name { IfSome result (λ found. IfSome found (λ seat. seat.name ≡ name.now)) }
    ensures left { Leaves name.now result named.old.entries named.new.entries }
    ensures own { AreOwnSeats named.new.entries }
{
    match named.get_mut(name) {
        Some(seat) => Some(seat.take()),
        None => None,
    }
}

// Puts a seat in under its operator's name, where the operator came before.
fn put_seat<L: Ledger>(named: &mut IndexMap<Text64, Option<OperatorSeat<L>>>, seat: OperatorSeat<L>)
    requires own { AreOwnSeats named.old.entries }
    ensures put { named.new.entries ≡ set_value (same_text seat.name) named.old.entries (Some seat) }
    ensures own { AreOwnSeats named.new.entries }
{
    if let Some(place) = named.get_mut(seat.name()) {
        *place = Some(seat);
    }
}

/// The operators of a day, for many connections at once: each has one seat for the whole day, however often it comes.
#[derive(Drop)]
pub struct Operators<L: Ledger> {
    table: Mutex<OperatorTable<L>>,
}

impl<L: Ledger> Operators<L> {
    /// These operators, who came before, and seats for others, which have no receipts. An error is out of memory.
    pub fn new(
        alloc: Global,
        own: Text64,
        came: Vec<OperatorSeat<L>>,
        spare: Vec<Seat<L>>,
    ) -> Result<Operators<L>, NoMemory>
        requires { All (λ receipts. receipts ≡ []) spare.items }
    {
        let named = seated(alloc, came)?;
        let table = Mutex::new(OperatorTable { own, spare, named });
        Ok(Operators { table })
    }

    /// Hands out the seat of an operator, who is on then: a seat of that name. Taken where the operator is on, Full where as many came as a
    /// day has; NoMemory.
    pub fn take(&self, rt: &impl Wait, name: Text64) -> Result<OperatorSeat<L>, NameFault>
        ensures { IfOk result (λ seat. seat.name ≡ name) }
    {
        self.table.lock(rt).take(name)
    }

    /// Takes a seat back, under its own operator's name. No memory is taken.
    pub fn give_back(&self, rt: &impl Wait, seat: OperatorSeat<L>) {
        self.table.lock(rt).give_back(seat);
    }

    /// The seats of the operators that aren't on, and those that nobody had, behind some others. An error is out of memory, which can't be
    /// where there is room.
    pub fn into_seats(self, others: Vec<Seat<L>>) -> Result<Vec<Seat<L>>, NoMemory>
        ensures { IfOk result (λ seats. Grows others.items seats.items) }
    {
        let Operators { table } = self;
        let OperatorTable { spare, named, .. } = table.into_inner();
        let seats = put_named(others, named)?;
        put_spare(seats, spare)
    }
}

// Puts the seats of the operators that aren't on behind others.
fn put_named<L: Ledger>(
    others: Vec<Seat<L>>,
    named: IndexMap<Text64, Option<OperatorSeat<L>>>,
) -> Result<Vec<Seat<L>>, NoMemory>
    ensures { IfOk result (λ seats. Grows others.items seats.items) }
{
    let mut seats = others;
    for seat in named.into_values() {
        if let Some(seat) = seat {
            seats.push(seat.into_seat())?;
        }
    }
    Ok(seats)
}

// Puts the seats that nobody had behind others.
fn put_spare<L: Ledger>(others: Vec<Seat<L>>, spare: Vec<Seat<L>>) -> Result<Vec<Seat<L>>, NoMemory>
    ensures { IfOk result (λ seats. Grows others.items seats.items) }
{
    let mut seats = others;
    for seat in spare {
        seats.push(seat)?;
    }
    Ok(seats)
}

// The seat of each operator, under its own name.
fn seated<L: Ledger>(
    alloc: Global,
    came: Vec<OperatorSeat<L>>,
) -> Result<IndexMap<Text64, Option<OperatorSeat<L>>>, NoMemory>
    ensures { IfOk result (λ named. AreOwnSeats named.entries) }
{
    let mut seated = IndexMap::with_capacity(alloc, came.len())?;
    for seat in came {
        let name = *seat.name();
        seated.insert(name, Some(seat))?;
    }
    Ok(seated)
}

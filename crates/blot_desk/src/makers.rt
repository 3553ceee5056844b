//! Who made each command of a desk.
ghost use Rattle.std.specs.Prelude.{◌≡◌, ◌++◌, ◌∷◌, ◌<◌, [], List, ℕ, IfOk, OnOk, length, map, reverse, take};
ghost use Rattle.blot_desk.specs.Makers.{maker_of_step, makers_of, name_at, no_makers, no_name, refusal_makers, step_makers, step_number, with_maker};

use crate::{Event, Found, Reply, StepRow};
use blot_types::Text64;
use indexmap::IndexSet;
use std::alloc::{AllocError as NoMemory, Global};
use std::marker::Model;

/// The name of a caller without one: `*`.
pub(crate) fn no_name() -> Text64
    ensures { result ≡ no_name }
{
    Text64::of(b"*")
}

/// Who made each command that was accepted, by its number, and each that was refused, in their order. Each name is kept once, and a command
/// has the place of its maker's. A contract sees the makers, the names that have a place, and for how many more commands there is room.
#[derive(Drop)]
pub(crate) struct Makers {
    names: IndexSet<Text64>,
    accepted: Vec<u32>,
    refused: Vec<u32>,
}

impl Model for Makers {
    ghost use Rattle.std.specs.Prelude.{◌-◌, length, min, vec_capacity};
    ghost use Rattle.blot_desk.specs.Makers.{AreWithin, NotedMakers, names_at};

    ghost Value = { NotedMakers };

    ghost view = { λ noted. record {
      makers = record { accepted = names_at noted.names.keys noted.accepted.items; refused = names_at noted.names.keys noted.refused.items };
      names = noted.names.keys;
      room = min (vec_capacity noted.accepted - length noted.accepted.items) (vec_capacity noted.refused - length noted.refused.items);
    } };

    ghost invariant = { λ noted. AreWithin noted.names.keys noted.accepted.items × AreWithin noted.names.keys noted.refused.items };
}

impl Makers {
    /// Nobody made a command yet. No memory is taken.
    pub(crate) fn new(alloc: Global) -> Makers
        ensures { result.makers ≡ no_makers }
    {
        Makers {
            names: IndexSet::new(alloc),
            accepted: Vec::new(alloc),
            refused: Vec::new(alloc),
        }
    }

    /// Makes room for a command of this maker, whose place it gives. An error is out of memory.
    #[tactic(auto, using(crate::proofs::MakerLemmas::names_grown))]
    pub(crate) fn reserve(&mut self, maker: &Text64) -> Result<u32, NoMemory>
        ensures makers { self.new.makers ≡ self.old.makers }
        ensures within { IfOk result (λ place. place < length self.new.names) }
        ensures place { IfOk result (λ place. name_at self.new.names place ≡ maker.now) }
        ensures room { OnOk result (0 < self.new.room) }
    {
        self.accepted.reserve(1)?;
        self.refused.reserve(1)?;
        place_of(&mut self.names, maker)
    }

    /// Notes who made an event, by the place of the name. No memory is taken.
    pub(crate) fn put(&mut self, place: u32, event: &Event, reply: &Reply)
        requires place { place < length self.old.names }
        requires room { 0 < self.old.room }
        ensures { self.new.makers ≡ with_maker (name_at self.old.names place) event.now reply.now self.old.makers }
    {
        match (event, reply) {
            (Event::Submit(_), Reply::Accepted(_)) => self.accepted.push_reserved(place),
            (Event::Submit(_), Reply::Refused(_)) => self.refused.push_reserved(place),
            _ => {}
        }
    }

    /// Who made each row of what was found. An error is out of memory.
    pub(crate) fn of(&self, alloc: Global, found: &Found) -> Result<Vec<Text64>, NoMemory>
        ensures { IfOk result (λ names. names.items ≡ makers_of self.now.makers found.now) }
    {
        match found {
            Found::Steps(rows) => self.of_steps(alloc, rows.as_slice()),
            Found::Refusals(rows) => self.of_refusals(alloc, rows.as_slice().len()),
            _ => Ok(Vec::new(alloc)),
        }
    }

    // Who made each of these steps.
    fn of_steps(&self, alloc: Global, rows: &[StepRow]) -> Result<Vec<Text64>, NoMemory>
        ensures { IfOk result (λ names. names.items ≡ step_makers self.now.makers rows.now) }
    {
        rows.iter().map(|row| self.of_step(row)).collect(alloc)
    }

    // Who made a step.
    fn of_step(&self, row: &StepRow) -> Text64
        ensures { result ≡ maker_of_step self.now.makers row.now }
    {
        match self
            .accepted
            .get(step_number(row).saturating_sub(1) as usize)
        {
            Some(place) => name_at(self.names.as_slice(), *place),
            None => no_name(),
        }
    }

    // Who made so many of the newest refused commands, the newest first.
    #[tactic(auto, using(crate::proofs::MakerLemmas::names_turned))]
    fn of_refusals(&self, alloc: Global, count: usize) -> Result<Vec<Text64>, NoMemory>
        ensures { IfOk result (λ names. names.items ≡ refusal_makers count self.now.makers) }
    {
        newest_names(alloc, self.names.as_slice(), &self.refused, count)
    }
}

// The number of a done step.
fn step_number(row: &StepRow) -> u64
    ensures { result ≡ step_number row.now }
{
    match row {
        StepRow::Entry(entry) => entry.number,
        StepRow::Withdraw(number, _) | StepRow::Withdrawn(number) => *number,
    }
}

// The name at a place.
fn name_at(names: &[Text64], place: u32) -> Text64
    ensures { result ≡ name_at names.now place }
{
    match names.get(place as usize) {
        Some(name) => *name,
        None => no_name(),
    }
}

// The names at so many of the last of some places, the last first.
fn newest_names(
    alloc: Global,
    names: &[Text64],
    places: &[u32],
    count: usize,
) -> Result<Vec<Text64>, NoMemory>
    ensures { IfOk result (λ newest. newest.items ≡ map (name_at names.now) (take count (reverse places.now))) }
{
    let newest = places.iter().rev().take(count);
    newest.map(|place| name_at(names, *place)).collect(alloc)
}

// The place of a name among those that have one, of which it is one then. An error is out of memory.
fn place_of(names: &mut IndexSet<Text64>, name: &Text64) -> Result<u32, NoMemory>
    ensures grows { (more : List (List ℕ)) × (names.new.keys ≡ names.old.keys ++ more) }
    ensures within { IfOk result (λ place. place < length names.new.keys) }
    ensures place { IfOk result (λ place. name_at names.new.keys place ≡ name.now) }
{
    let (place, _) = names.insert_full(*name)?;
    match u32::try_from(place) {
        Ok(place) => Ok(place),
        Err(_) => Err(NoMemory),
    }
}

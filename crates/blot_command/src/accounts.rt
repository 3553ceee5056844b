//! The live list with its positions.
ghost use Rattle.std.specs.Prelude.{◌≡◌, [], ◌∷◌, ◌++◌, find, None, Some, IsSome, IsTrue, OnOk, OnErr, IfErr, option_map};
ghost use Rattle.std.specs.List.{last_or};
ghost use Rattle.blot_types.specs.Laws.{HasBoundedTotals};
ghost use Rattle.blot_types.specs.Legal.{is_above_entries, is_book, without};
ghost use Rattle.blot_types.specs.Position.{is_named, part_of, part_of_fill, position_of};
ghost use Rattle.blot_types.specs.Survivors.{version_of};
ghost use Rattle.blot_command.specs.Book.{has_number};
ghost use Rattle.blot_command.specs.Kinds.{trade_of};
ghost use Rattle.blot_command.specs.Shown.{version_replaced};
ghost use Rattle.blot_command.specs.Withdrawing.{with_entry, HasLast, lifted, returned, CanReturn};
ghost use Rattle.blot_command.specs.Booking.{changed_all, CanChangeAll, chains_moved, allocated, released};

use crate::BoxedEntry;
use crate::booking::{open_cells, put_lines, put_part, rebook, take_lines, take_part};
use crate::live::LiveList;
use blot_position::Positions;
use blot_types::{AllocKey, Command, Entry, ExecKey, Fill, Part, PositionLine, Text64, Version};
use std::alloc::Global;
use std::marker::Model;

/// The live list, with the positions of its executions and its allocations. A contract sees it as the live list, and
/// the entries that are withdrawn and kept.
#[derive(Drop)]
pub(crate) struct Accounts {
    live: LiveList,
    positions: Positions,
}

impl Model for Accounts {
    ghost use Rattle.blot_command.specs.Book.{Shown};
    ghost use Rattle.blot_command.specs.Carried.{ShowsPositions};

    ghost Value = { Shown };

    ghost view = { λ accounts. accounts.live };

    ghost invariant = { λ accounts. ShowsPositions accounts.live accounts.positions };
}

impl Accounts {
    /// An empty list. No memory is taken.
    pub(crate) fn new(alloc: Global) -> Accounts
        ensures { result ≡ record { list = []; kept = [] } }
    {
        Accounts {
            live: LiveList::new(alloc),
            positions: Positions::new(alloc),
        }
    }

    /// The live list.
    pub(crate) fn live(&self) -> &LiveList
        ensures { result.now ≡ self.now }
    {
        &self.live
    }

    /// The position of an account in a symbol, or none where it has no part.
    pub(crate) fn position(&self, account: &Text64, symbol: &Text64) -> Option<PositionLine>
        ensures line { result ≡ position_of self.now.list account.now symbol.now }
        ensures bounded { IsTrue (is_book self.now.list) → HasBoundedTotals self.now.list }
    {
        self.positions.get(account, symbol)
    }

    /// Puts an entry after the others, or hands it back where memory runs out. Its number is above those whose slots are left. It
    /// replaces this version, if one.
    pub(crate) fn push(
        &mut self,
        entry: BoxedEntry,
        replaced: &Option<Version>,
    ) -> Result<(), BoxedEntry>
        requires book { IsTrue (is_book (self.old.list ++ entry ∷ [])) }
        requires above { IsTrue (is_above_entries entry.number self.old.kept) }
        requires replaces { replaced.now ≡ version_replaced self.old.list entry }
        ensures ok { OnOk result (self.new ≡ with_entry entry self.old) }
        ensures err { OnErr result (self.new ≡ self.old) }
        ensures returned { IfErr result (λ back. back ≡ entry) }
    {
        let inner = entry.as_entry();
        let Ok(()) = open_cells(&mut self.positions, inner) else {
            return Err(entry);
        };
        let ended = inner.command.alloc_reference();
        let brought = inner.command.brought_key();
        let gone = part_of(&self.live, replaced);
        match self.live.push(entry) {
            Ok(()) => {
                let come = part_by(&self.live, self.live.last());
                rebook(&mut self.positions, &gone, &come);
                release(&mut self.positions, &self.live, &ended);
                allocate(&mut self.positions, &self.live, &brought);
                Ok(())
            }
            Err(back) => Err(back),
        }
    }

    /// The same of a Trade. It replaces no version, and ends and brings no allocation, so its own part is all that comes.
    pub(crate) fn push_trade(&mut self, entry: BoxedEntry) -> Result<(), BoxedEntry>
        requires book { IsTrue (is_book (self.old.list ++ entry ∷ [])) }
        requires above { IsTrue (is_above_entries entry.number self.old.kept) }
        requires trade { IsSome (trade_of entry.command) }
        ensures ok { OnOk result (self.new ≡ with_entry entry self.old) }
        ensures err { OnErr result (self.new ≡ self.old) }
        ensures returned { IfErr result (λ back. back ≡ entry) }
    {
        let Ok(()) = open_cells(&mut self.positions, entry.as_entry()) else {
            return Err(entry);
        };
        match self.live.push(entry) {
            Ok(()) => {
                let come = part_by(&self.live, self.live.last());
                rebook(&mut self.positions, &None, &come);
                Ok(())
            }
            Err(back) => Err(back),
        }
    }

    /// Takes the last entry out.
    pub(crate) fn pop(&mut self) -> BoxedEntry
        requires { HasLast self.old }
        ensures rest { self.old ≡ with_entry result self.new }
        ensures above { IsTrue (is_above_entries result.number self.new.kept) }
        ensures book { IsTrue (is_book self.old.list) }
    {
        let last = self.live.last();
        let version = last.version();
        let ended = last.command.alloc_reference();
        let brought = last.command.brought_key();
        release(&mut self.positions, &self.live, &brought);
        allocate(&mut self.positions, &self.live, &ended);
        let gone = part_of(&self.live, &version);
        let entry = self.live.pop();
        let inner = entry.as_entry();
        let come = part_of(&self.live, &self.live.replaced(inner));
        rebook(&mut self.positions, &gone, &come);
        entry
    }

    /// Takes the entry of a number out, whatever came later, and keeps its slot: what it brought goes, and what it took the place of,
    /// busted or ended stands again. The list without it is a book. No memory is taken.
    pub(crate) fn lift(&mut self, number: u64) -> BoxedEntry
        requires book { IsTrue (is_book self.old.list) }
        requires there { IsSome (find (has_number number) self.old.list) }
        requires rest { IsTrue (is_book (without number self.old.list)) }
        ensures entry { find (has_number number) self.old.list ≡ Some result }
        ensures lifted { self.new ≡ lifted result self.old }
        ensures kept { CanReturn result self.new }
    {
        let Some(entry) = self.live.entry(number) else {
            unreachable!()
        };
        let ended = entry.command.alloc_reference();
        let brought = entry.command.brought_key();
        let chain = self.live.chain_of(&entry.link());
        release(&mut self.positions, &self.live, &brought);
        allocate(&mut self.positions, &self.live, &ended);
        let gone = part_of(&self.live, &self.live.stood(&chain));
        let entry = self.live.lift(number);
        let come = part_of(&self.live, &self.live.stood(&chain));
        rebook(&mut self.positions, &gone, &come);
        entry
    }

    /// Puts an entry whose slot is kept back at its place. No memory is taken.
    pub(crate) fn un_lift(&mut self, entry: BoxedEntry)
        requires { CanReturn entry self.old }
        ensures returned { self.new ≡ returned entry self.old }
        ensures book { IsTrue (is_book self.old.list) }
    {
        let ended = entry.as_entry().command.alloc_reference();
        let brought = entry.as_entry().command.brought_key();
        let chain = self.live.chain_of(&entry.as_entry().link());
        let gone = part_of(&self.live, &self.live.stood(&chain));
        self.live.un_lift(entry);
        let come = part_of(&self.live, &self.live.stood(&chain));
        rebook(&mut self.positions, &gone, &come);
        release(&mut self.positions, &self.live, &ended);
        allocate(&mut self.positions, &self.live, &brought);
    }
}

// What a version adds to a position, if there is one.
fn part_of(live: &LiveList, version: &Option<Version>) -> Option<Part>
    ensures { result ≡ option_map (part_of live.now.list) version.now }
{
    match version {
        None => None,
        Some(version) => Some(part_in(live, &version.key, &version.fill)),
    }
}

// What the version adds that the last entry brings, if it brings one. A Trade's chain is new, so no allocation names it, and nothing
// is looked up.
fn part_by(live: &LiveList, entry: &Entry) -> Option<Part>
    requires last { last_or None live.now.list ≡ Some entry.now }
    requires book { IsTrue (is_book live.now.list) }
    ensures { result ≡ option_map (part_of live.now.list) (version_of entry.now) }
{
    match &entry.command {
        Command::Trade(trade) => Some(Part::of_fill(false, &trade.fill)),
        Command::Correct(correct) => Some(part_in(live, &correct.key, &correct.fill)),
        Command::Bust(_)
        | Command::AllocNew(_)
        | Command::AllocReplace(_)
        | Command::AllocCancel(_)
        | Command::Withdraw(_) => None,
    }
}

// What the fill of a key adds.
fn part_in(live: &LiveList, key: &ExecKey, fill: &Fill) -> Part
    ensures { result ≡ part_of_fill (is_named live.now.list key.now) fill.now }
{
    Part::of_fill(live.is_named(key), fill)
}

// Puts what the allocation of a key changes, if there is a key: its chains go to the house account, and its
// lines are put.
fn allocate(positions: &mut Positions, live: &LiveList, key: &Option<AllocKey>)
    requires { CanChangeAll (allocated live.now.list key.now) positions.old }
    ensures { positions.new ≡ changed_all (allocated live.now.list key.now) positions.old }
{
    let Some(key) = key else { return };
    if let (Some(terms), Some(roots)) = (live.terms_of(key), live.roots_of(key)) {
        move_chains(positions, live, roots, true);
        put_lines(positions, terms);
    }
}

// Takes it again: its lines are taken, and its chains come back from the house account.
fn release(positions: &mut Positions, live: &LiveList, key: &Option<AllocKey>)
    requires { CanChangeAll (released live.now.list key.now) positions.old }
    ensures { positions.new ≡ changed_all (released live.now.list key.now) positions.old }
{
    let Some(key) = key else { return };
    if let (Some(terms), Some(roots)) = (live.terms_of(key), live.roots_of(key)) {
        take_lines(positions, terms);
        move_chains(positions, live, roots, false);
    }
}

// Moves the versions that stand of some chains from their own accounts to the house account, where they are named now, or else back.
fn move_chains(positions: &mut Positions, live: &LiveList, roots: &[ExecKey], named: bool)
    requires { CanChangeAll (chains_moved named live.now.list roots.now) positions.old }
    ensures { positions.new ≡ changed_all (chains_moved named live.now.list roots.now) positions.old }
{
    for root in roots {
        if let Some(fill) = live.standing_fill(root) {
            take_part(positions, &Part::of_fill(!named, fill));
            put_part(positions, &Part::of_fill(named, fill));
        }
    }
}

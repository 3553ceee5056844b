//! The book.
ghost use Rattle.std.specs.Prelude.{◌≡◌, ◌<◌, [], ◌∷◌, ◌++◌, None, Some, IsSome, find, IsTrue, OnOk, OnErr, IfOk, IfErr, IfSome, option_copied, option_map};
ghost use Rattle.std.specs.List.{last_or};
ghost use Rattle.blot_types.specs.Laws.{HasBoundedTotals, IsConserving};
ghost use Rattle.blot_types.specs.Legal.{is_above_entries, is_book, entry_refusal, least_needing, refusal_of, without};
ghost use Rattle.blot_types.specs.Order.{order_of};
ghost use Rattle.blot_types.specs.Position.{position_of};
ghost use Rattle.blot_types.specs.Survivors.{version_of};
ghost use Rattle.blot_command.specs.Book.{has_number};
ghost use Rattle.blot_command.specs.Kinds.{trade_of};
ghost use Rattle.blot_types.specs.declared.command.Command.TheVariants.{Withdraw};
ghost use Rattle.blot_command.specs.Questions.{allocation_of, execution_of};
ghost use Rattle.blot_command.specs.Shown.{chain_numbered, with_put, with_kept, IsPut, IsKept, CanPut};
ghost use Rattle.blot_command.specs.Withdrawing.{with_entry, HasLast, lifted, returned, CanReturn};

use crate::accounts::Accounts;
use crate::{AllocationAnswer, BoxedEntry, ExecutionAnswer, Reported, Snapshot, Standing, Told};
use blot_order::Orders;
use blot_types::{
    AllocKey, Command, Entry, ExecKey, OrderKey, OrderLine, PositionLine, Refused, Text64, Version,
};
use std::alloc::{AllocError as NoMemory, Global};
use std::marker::Model;

/// The book: its live list of entries, in rising order of number, with the chains, the allocations and the
/// positions of its entries, and the fills that stand. A contract sees its live list, which is always legal, and the entries that
/// were taken out of its middle and whose slots are kept.
#[derive(Drop)]
pub struct Tables {
    accounts: Accounts,
    orders: Orders,
}

impl Model for Tables {
    ghost use Rattle.blot_command.specs.Book.{Shown};
    ghost use Rattle.blot_command.specs.Shown.{Shows};

    ghost Value = { Shown };

    ghost view = { λ tables. tables.accounts };

    ghost invariant = { λ tables. Shows tables.accounts tables.orders };
}

impl Tables {
    /// An empty book. No memory is taken.
    pub fn new(alloc: Global) -> Tables
        ensures empty { result ≡ record { list = []; kept = [] } }
        ensures book { IsTrue (is_book result.list) }
    {
        Tables {
            accounts: Accounts::new(alloc),
            orders: Orders::new(alloc),
        }
    }

    /// The line of an order, or none where no execution of it stands.
    pub fn order(&self, order: &OrderKey) -> Option<OrderLine>
        ensures line { result ≡ order_of self.now.list order.now }
        ensures book { IsTrue (is_book self.now.list) }
    {
        self.orders.get(order)
    }

    /// The position of an account, `*` the house account, in a symbol, or none where no execution that stands
    /// and no line of a live allocation adds to it.
    pub fn position(&self, account: &Text64, symbol: &Text64) -> Option<PositionLine>
        ensures line { result ≡ position_of self.now.list account.now symbol.now }
        ensures book { IsTrue (is_book self.now.list) }

        // Over all accounts the positions of a symbol add up to the executions that stand; no total reaches 10^38.
        ensures conserving { IsConserving self.now.list }
        ensures bounded { HasBoundedTotals self.now.list }
    {
        self.accounts.position(account, symbol)
    }

    /// The entry of a number, if it is live.
    pub fn entry(&self, number: u64) -> Option<&Entry>
        ensures entry { option_copied result ≡ find (has_number number) self.now.list }
        ensures book { IsTrue (is_book self.now.list) }
    {
        self.accounts.live().entry(number)
    }

    /// The number of the first entry that needs the one of a number, which is live: the least above it at which the entries up to
    /// it, without that one, aren't legal. None where all later entries can do without it. No memory is taken. This project's
    /// rule.
    pub fn blocked(&self, number: u64) -> Option<u64>
        requires live { IsSome (find (has_number number) self.now.list) }
        ensures blocked { result ≡ least_needing self.now.list number }
        ensures book { IsTrue (is_book self.now.list) }
    {
        self.accounts.live().blocked(number)
    }

    /// What is told of the execution of a key: its whole chain, what ended it or its last version, and the live allocation that names
    /// it. None where no entry takes the key up. It takes look-ups, and a step for each version and each entry that was taken out of
    /// the chain. An error is out of memory. This project's rule.
    pub fn execution(&self, key: &ExecKey) -> Result<Option<ExecutionAnswer>, NoMemory>
        ensures answer { IfOk result (λ answer. answer ≡ execution_of self.now.list key.now) }
        ensures book { IsTrue (is_book self.now.list) }
    {
        self.accounts.live().execution(key)
    }

    /// What is told of the allocation of a key: its entry, and the one that replaced or cancelled it. None where no entry takes the key
    /// up. An error is out of memory. This project's rule.
    pub fn allocation(&self, key: &AllocKey) -> Result<Option<AllocationAnswer>, NoMemory>
        ensures answer { IfOk result (λ answer. answer ≡ allocation_of self.now.list key.now) }
        ensures book { IsTrue (is_book self.now.list) }
    {
        self.accounts.live().allocation(key)
    }

    /// Why the withdrawal of the entry of a number would be refused; none where it would be accepted. No memory is taken. This project's
    /// rule.
    pub fn needs(&self, number: u64) -> Option<Refused>
        ensures refusal { result ≡ refusal_of self.now.list (Withdraw number) }
        ensures book { IsTrue (is_book self.now.list) }
    {
        if self.entry(number).is_none() {
            return Some(Refused::NotLive(number));
        }
        self.blocked(number).map(Refused::Needed)
    }

    /// The greatest number of the live list, which is that of its last entry, or none where the list is empty. No memory is taken.
    pub fn newest(&self) -> Option<u64>
        ensures newest { result ≡ option_map (λ entry. entry.number) (last_or None self.now.list) }
        ensures book { IsTrue (is_book self.now.list) }
    {
        self.accounts.live().newest()
    }

    /// The live entries, copied, in rising order of number.
    pub fn entries(&self, alloc: Global) -> Result<Vec<Entry>, NoMemory>
        ensures entries { IfOk result (λ entries. entries.items ≡ self.now.list) }
        ensures book { IsTrue (is_book self.now.list) }
    {
        self.accounts.live().entries(alloc)
    }

    /// The live entries, copied, with what each comes to. An error is out of memory.
    pub fn snapshot(&self, alloc: Global) -> Result<Snapshot, NoMemory>
        ensures entries { IfOk result (λ snapshot. snapshot ≡ self.now.list) }
        ensures book { IsTrue (is_book self.now.list) }
    {
        let live = self.accounts.live();
        let standings = live.standings(alloc)?;
        let entries = live.entries(alloc)?;
        Ok(Snapshot::of(entries, standings))
    }

    /// Why the book refuses a command as its next entry. A Withdraw is never an entry: NotLive. No memory is taken.
    pub fn refusal(&self, command: &Command) -> Option<Refused>
        ensures refusal { result ≡ entry_refusal self.now.list command.now }
        ensures book { IsTrue (is_book self.now.list) }
    {
        self.accounts.live().refusal(command)
    }

    /// Where it takes its memory from.
    pub(crate) fn alloc(&self) -> Global {
        self.accounts.live().alloc()
    }

    /// Puts an entry after the others, or hands it back where memory runs out. Its number is above those whose slots are kept.
    pub(crate) fn record(&mut self, entry: BoxedEntry) -> Result<(), BoxedEntry>
        requires book { IsTrue (is_book (self.old.list ++ entry ∷ [])) }
        requires above { IsTrue (is_above_entries entry.number self.old.kept) }
        ensures ok { OnOk result (self.new ≡ with_entry entry self.old) }
        ensures err { OnErr result (self.new ≡ self.old) }
        ensures returned { IfErr result (λ back. back ≡ entry) }
    {
        if entry.is_trade() {
            self.record_trade(entry)
        } else {
            self.record_other(entry)
        }
    }

    // The same of a Trade. It takes no version's place, so its own fill is all that comes.
    fn record_trade(&mut self, entry: BoxedEntry) -> Result<(), BoxedEntry>
        requires book { IsTrue (is_book (self.old.list ++ entry ∷ [])) }
        requires above { IsTrue (is_above_entries entry.number self.old.kept) }
        requires trade { IsSome (trade_of entry.command) }
        ensures ok { OnOk result (self.new ≡ with_entry entry self.old) }
        ensures err { OnErr result (self.new ≡ self.old) }
        ensures returned { IfErr result (λ back. back ≡ entry) }
    {
        let Ok(()) = hold(&mut self.orders, entry.as_entry()) else {
            return Err(entry);
        };
        match self.accounts.push_trade(entry) {
            Ok(()) => {
                put_held(&mut self.orders, self.accounts.live().last());
                Ok(())
            }
            Err(back) => Err(back),
        }
    }

    // The same of any entry. It stands out of line, since its frame has room for a version that is replaced, and a Trade replaces none.
    #[inline(never)]
    fn record_other(&mut self, entry: BoxedEntry) -> Result<(), BoxedEntry>
        requires book { IsTrue (is_book (self.old.list ++ entry ∷ [])) }
        requires above { IsTrue (is_above_entries entry.number self.old.kept) }
        ensures ok { OnOk result (self.new ≡ with_entry entry self.old) }
        ensures err { OnErr result (self.new ≡ self.old) }
        ensures returned { IfErr result (λ back. back ≡ entry) }
    {
        let inner = entry.as_entry();
        let replaced = self.accounts.live().replaced(inner);
        let Ok(()) = hold(&mut self.orders, inner) else {
            return Err(entry);
        };
        match self.accounts.push(entry, &replaced) {
            Ok(()) => {
                take(&mut self.orders, &replaced);
                put_held(&mut self.orders, self.accounts.live().last());
                Ok(())
            }
            Err(back) => Err(back),
        }
    }

    /// Takes the last entry out.
    pub(crate) fn take_last(&mut self) -> BoxedEntry
        requires { HasLast self.old }
        ensures rest { self.old ≡ with_entry result self.new }
        ensures above { IsTrue (is_above_entries result.number self.new.kept) }
    {
        let entry = self.accounts.pop();
        let inner = entry.as_entry();
        let version = inner.version();
        let restored = self.accounts.live().replaced(inner);
        take(&mut self.orders, &version);
        un_take(&mut self.orders, &restored);
        entry
    }

    /// Takes the entry of a number, which is live, out of the list, whatever came later, and keeps its slot. The list without it is a
    /// book. No memory is taken. This project's rule.
    pub fn lift(&mut self, number: u64) -> BoxedEntry
        requires there { IsSome (find (has_number number) self.old.list) }
        requires rest { IsTrue (is_book (without number self.old.list)) }
        ensures entry { find (has_number number) self.old.list ≡ Some result }
        ensures lifted { self.new ≡ lifted result self.old }
        ensures kept { CanReturn result self.new }
        ensures book { IsTrue (is_book self.old.list) }
    {
        let chain = self.chain_of(number);
        let gone = self.accounts.live().stood(&chain);
        let entry = self.accounts.lift(number);
        let come = self.accounts.live().stood(&chain);
        take(&mut self.orders, &gone);
        un_take(&mut self.orders, &come);
        entry
    }

    /// Puts an entry back at its place, under its number. Its slot is kept, no kept entry above it takes up its execution, and with it the
    /// list is a book: so it is of an entry that `lift` gave, once all that was done since is undone. No memory is taken. This project's
    /// rule.
    pub fn un_lift(&mut self, entry: BoxedEntry)
        requires { CanReturn entry self.old }
        ensures returned { self.new ≡ returned entry self.old }
        ensures book { IsTrue (is_book self.old.list) }
    {
        let chain = self.accounts.live().chain_of(&entry.as_entry().link());
        let gone = self.accounts.live().stood(&chain);
        self.accounts.un_lift(entry);
        let come = self.accounts.live().stood(&chain);
        take(&mut self.orders, &gone);
        un_take(&mut self.orders, &come);
    }

    // The root of the chain of the entry of a number, which is live.
    fn chain_of(&self, number: u64) -> Option<ExecKey>
        ensures { result ≡ chain_numbered self.now.list number }
    {
        match self.entry(number) {
            None => None,
            Some(entry) => self.accounts.live().chain_of(&entry.link()),
        }
    }
}

impl Reported for Tables {
    ghost use Rattle.std.specs.Prelude.{List};
    ghost use Rattle.blot_types.specs.declared.command.Entry.{Entry};

    ghost list_of = { λ tables. tables.list };

    fn standings(&self, alloc: Global) -> Result<Vec<Standing>, NoMemory> {
        self.accounts.live().standings(alloc)
    }

    fn told(&self, alloc: Global, standings: &[Standing]) -> Result<Vec<Told<'_>>, NoMemory> {
        self.accounts.live().told(alloc, standings)
    }
}

// Makes the cell of the fill that an entry brings, if it brings one.
fn hold(orders: &mut Orders, entry: &Entry) -> Result<(), NoMemory>
    requires { IfSome (version_of entry.now) (λ version. CanPut version orders.old) }
    ensures ok { OnOk result (orders.new ≡ with_kept (version_of entry.now) orders.old) }
    ensures err { OnErr result (orders.new ≡ orders.old) }
{
    match &entry.command {
        Command::Trade(trade) => orders.hold(entry.number, &trade.fill),
        Command::Correct(correct) => orders.hold(entry.number, &correct.fill),
        Command::Bust(_)
        | Command::AllocNew(_)
        | Command::AllocReplace(_)
        | Command::AllocCancel(_)
        | Command::Withdraw(_) => Ok(()),
    }
}

// Puts the fill that an entry brings, which is held under its number.
fn put_held(orders: &mut Orders, entry: &Entry)
    requires { IfSome (version_of entry.now) (λ version. IsKept version orders.old) }
    ensures { orders.new ≡ with_put (version_of entry.now) orders.old }
{
    match &entry.command {
        Command::Trade(_) | Command::Correct(_) => orders.un_take(entry.number),
        Command::Bust(_)
        | Command::AllocNew(_)
        | Command::AllocReplace(_)
        | Command::AllocCancel(_)
        | Command::Withdraw(_) => {}
    }
}

// Takes the fill of a version, if there is one.
fn take(orders: &mut Orders, version: &Option<Version>)
    requires { IfSome version.now (λ version. IsPut version orders.old) }
    ensures { orders.new ≡ with_kept version.now orders.old }
{
    if let Some(version) = version {
        orders.take(version.number, &version.fill);
    }
}

// Puts the fill of a version again, if there is one.
fn un_take(orders: &mut Orders, version: &Option<Version>)
    requires { IfSome version.now (λ version. IsKept version orders.old) }
    ensures { orders.new ≡ with_put version.now orders.old }
{
    if let Some(version) = version {
        orders.un_take(version.number);
    }
}

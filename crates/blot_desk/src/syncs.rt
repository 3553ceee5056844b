//! The syncs of a desk.
ghost use Rattle.std.specs.Prelude.{◌≡◌, ◌≤◌, ◌<◌, None, Err, IfSome, OnErr, OnOk, Ok, Some, false, true};
ghost use Rattle.blot_desk.specs.Keeping.{IsSynced, IsUnwritten};
ghost use Rattle.blot_desk.specs.Syncs.{waits};

use crate::{KeepFault, Keeper};
use std::marker::{Model, PhantomData};
use std::sync::atomic::AtomicU64;
use std::sync::atomic::Ordering::SeqCst;
use std::sync::{Condvar, Mutex, Wait};

/// The syncs of a desk, one at a time. What is kept is counted, so that who asks for a sync waits only for one that began after all was kept
/// that is there when he asks. One of those who wait makes it, for all.
#[derive(Drop)]
pub(crate) struct Syncs<K: Keeper> {
    kept: AtomicU64,
    last: Mutex<Last<K>>,
    ended: Condvar,
}

// How much was kept before the last sync that ended, and what that came to; and whether one goes on.
#[derive(Drop)]
struct Last<K: Keeper> {
    durable: u64,
    outcome: Result<(), KeepFault>,
    goes_on: bool,
    keeper: PhantomData<K>,
}

impl<K: Keeper> Model for Last<K> {
    ghost use Rattle.std.specs.Prelude.{◌<◌, OnErr, OnOk};
    ghost use Rattle.blot_desk.specs.Keeping.{IsSynced, IsUnwritten};
    ghost use Rattle.blot_desk.specs.Syncs.{Syncing};

    ghost Value = { Syncing };

    ghost view = { λ last. record { durable = last.durable; goes_on = last.goes_on } };

    ghost invariant = { λ last. (0 < last.durable → OnOk last.outcome (IsSynced K.events K.durable))
        × OnErr last.outcome (IsUnwritten K.is_broken) };
}

impl<K: Keeper> Syncs<K> {
    /// Those of a desk at which none was asked for yet.
    pub(crate) fn new() -> Syncs<K> {
        Syncs {
            kept: AtomicU64::new(0),
            last: Mutex::new(Last {
                durable: 0,
                outcome: Ok(()),
                goes_on: false,
                keeper: PhantomData,
            }),
            ended: Condvar::new(),
        }
    }

    /// Counts what is kept: once it is, and before the desk's lock is let go.
    pub(crate) fn count(&self) {
        self.kept.fetch_add(1, SeqCst);
    }

    /// How much is kept, counted from 1 on.
    pub(crate) fn kept(&self) -> u64
        ensures { 0 < result }
    {
        self.kept.load(SeqCst).saturating_add(1)
    }

    /// What a sync came to that began after all was kept that is kept now. None where the caller has to make it, and then to say what it came
    /// to (`end`).
    pub(crate) fn wait(&self, rt: &impl Wait) -> Option<Result<(), KeepFault>>
        ensures synced { result ≡ Some (Ok tt) → IsSynced K.events K.durable }
        ensures broken { (fault : KeepFault) → result ≡ Some (Err fault) → IsUnwritten K.is_broken }
    {
        let count = self.kept();
        let last = self.last.lock(rt);
        let mut last = self.ended.wait_while(rt, last, |last| last.waits(count));
        last.told_or_begins(count)
    }

    /// Ends the sync that goes on, before which so much was kept, and tells all who wait.
    pub(crate) fn end(&self, rt: &impl Wait, count: u64, outcome: Result<(), KeepFault>)
        requires synced { OnOk outcome (IsSynced K.events K.durable) }
        requires broken { OnErr outcome (IsUnwritten K.is_broken) }
    {
        self.last.lock(rt).end(count, outcome);
        self.ended.notify_all();
    }
}

impl<K: Keeper> Last<K> {
    // Whether so much isn't durable yet, and a sync goes on.
    fn waits(&self, count: u64) -> bool
        ensures { result ≡ waits count self.now }
    {
        self.durable < count && self.goes_on
    }

    // What the last sync came to, if so much was kept before it. None if not: then the next one begins.
    fn told_or_begins(&mut self, count: u64) -> Option<Result<(), KeepFault>>
        requires { 0 < count }
        ensures told { IfSome result (λ _. count ≤ self.old.durable) }
        ensures same { IfSome result (λ _. self.new ≡ self.old) }
        ensures begins { result ≡ None → (self.old.durable < count) × (self.new ≡ record self.old { goes_on = true }) }
        ensures synced { result ≡ Some (Ok tt) → IsSynced K.events K.durable }
        ensures broken { (fault : KeepFault) → result ≡ Some (Err fault) → IsUnwritten K.is_broken }
    {
        if count <= self.durable {
            return Some(self.outcome);
        }
        self.goes_on = true;
        None
    }

    // Ends the sync that goes on, before which so much was kept.
    fn end(&mut self, count: u64, outcome: Result<(), KeepFault>)
        requires synced { OnOk outcome (IsSynced K.events K.durable) }
        requires broken { OnErr outcome (IsUnwritten K.is_broken) }
        ensures { self.new ≡ record { durable = count; goes_on = false } }
    {
        self.durable = count;
        self.outcome = outcome;
        self.goes_on = false;
    }
}

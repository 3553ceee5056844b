//! What a device was asked to do, remembered by proofs alone.
ghost use Rattle.std.specs.Prelude.{◌≡◌, List, [], ◌∷◌};
ghost use Rattle.std.specs.Borrow.{ftrue};
ghost use Rattle.blot_journal.specs.Calls.{Call, call_of, coded_calls};

use std::marker::{Model, PhantomData};

// The kinds of call.
pub(crate) const BEGAN: u64 = 0;

pub(crate) const WROTE: u64 = 1;

pub(crate) const CUT: u64 = 2;

pub(crate) const SYNCED: u64 = 3;

pub(crate) const READ: u64 = 4;

/// The calls of a device, the newest first. It takes no memory, and does nothing when the program runs: proofs alone read it.
#[derive(Drop)]
pub(crate) struct GhostCalls {
    marker: PhantomData<u8>,
    pub ghost calls: { List Call } by { coded_calls },
}

impl Model for GhostCalls {
    ghost also_owns = { λ _. ftrue };
}

// It owns nothing, and nothing of it can be reached: so it goes to another thread, and is shared with one.
unsafe impl Send for GhostCalls {}

unsafe impl Sync for GhostCalls {}

impl GhostCalls {
    /// No calls.
    pub(crate) fn new() -> GhostCalls
        ensures { result.calls ≡ [] }
    {
        GhostCalls {
            marker: PhantomData,
        }
    }

    /// Notes a call: its kind, its place or length, 1 where it was done, and its bytes.
    pub(crate) fn note(&mut self, _numbers: &[u64], _bytes: &[u8])
        ensures { self.new.calls ≡ call_of _numbers.now _bytes.now ∷ self.old.calls }
    {}
}

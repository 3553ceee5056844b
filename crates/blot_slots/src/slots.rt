//! The table of sessions under its lock.
ghost use Rattle.std.specs.Prelude.{◌≡◌, ◌↔◌, ◌⊎◌, Err, IfOk, IfErr};
ghost use Rattle.std.specs.List.{IsDistinct};
ghost use Rattle.blot_types.specs.Keys.{same_text};
ghost use Rattle.blot_session.specs.States.{IsIdle};
ghost use Rattle.blot_slots.specs.Slots.{IsWaiting};

use crate::{SlotFault, SlotTable};
use blot_session::Session;
use blot_types::Text64;
use std::alloc::Global;
use std::marker::Model;
use std::sync::{Mutex, Wait};

/// The sessions of a blotter with its listed peers, for many connections at once. A contract sees the blotter's CompID, which
/// stands beside the lock.
#[derive(Drop)]
pub struct Slots {
    own: Text64,
    table: Mutex<SlotTable>,
}

impl Model for Slots {
    ghost use Rattle.std.specs.Prelude.{ℕ, List};

    ghost Value = { List ℕ };

    ghost view = { λ slots. slots.own };
}

impl Slots {
    /// The table of a blotter with these peers, as `SlotTable::new` makes it.
    pub fn new(alloc: Global, own: Text64, peers: &[Text64]) -> Result<Slots, SlotFault>
        ensures own { IfOk result (λ slots. slots ≡ own) }
        ensures repeated { (result ≡ Err SlotFault.RepeatedPeer) ↔ (IsDistinct same_text peers.now → ⊥) }
        ensures err { IfErr result (λ fault. (fault ≡ SlotFault.RepeatedPeer) ⊎ (fault ≡ SlotFault.NoMemory)) }
    {
        let table = Mutex::new(SlotTable::new(alloc, own, peers)?);
        Ok(Slots { own, table })
    }

    /// The blotter's CompID. No lock is taken.
    pub fn own(&self) -> Text64
        ensures { result ≡ self.now }
    {
        self.own
    }

    /// Hands out the session of a peer, which is out then. UnknownPeer where the peer isn't listed, AlreadyOn where its session
    /// is out. No memory is taken.
    pub fn check_out(&self, rt: &impl Wait, peer: &Text64) -> Result<Session, SlotFault>
        ensures err { IfErr result (λ fault. (fault ≡ SlotFault.UnknownPeer) ⊎ (fault ≡ SlotFault.AlreadyOn)) }

        // What is handed out is the peer's, and waits for its Logon.
        ensures waiting { IfOk result (IsWaiting peer.now) }
        ensures idle { IfOk result IsIdle }
    {
        self.table.lock(rt).check_out(peer)
    }

    /// Takes back the session of a peer, where that is out. It waits for a Logon again, and keeps both numbers. No memory is taken.
    pub fn check_in(&self, rt: &impl Wait, session: Session) {
        self.table.lock(rt).take_back(session);
    }
}

//! The table of sessions.
ghost use Rattle.std.specs.Prelude.{◌≡◌, ◌↔◌, ◌⊎◌, Some, None, Err, is_some, true, IfOk, IfErr, OnOk, OnErr};
ghost use Rattle.std.specs.List.{IsDistinct};
ghost use Rattle.std.specs.Map.{lookup, set_value};
ghost use Rattle.blot_types.specs.Keys.{same_text};
ghost use Rattle.blot_session.specs.States.{IsIdle, waiting_again};
ghost use Rattle.blot_slots.specs.Slots.{all_in, answer_of, checked_out, fresh_slots, slot_of, with_slot, IsWaiting};

use crate::{SlotFault, are_distinct};
use blot_session::Session;
use blot_types::Text64;
use indexmap::IndexMap;
use std::alloc::{AllocError as NoMemory, Global};
use std::marker::Model;

/// The sessions of a blotter with its listed peers. Each is in, and waits for a Logon, or it is out with the one
/// connection that its peer has.
#[derive(Drop)]
pub struct SlotTable {
    own: Text64,
    // A peer's slot is none while its session is out.
    slots: IndexMap<Text64, Option<Session>>,
}

impl Model for SlotTable {
    ghost use Rattle.blot_slots.specs.Slots.{Slots, AreWaiting};

    ghost Value = { Slots };

    ghost view = { λ table. record { own = table.own; slots = table.slots.entries } };

    ghost invariant = { λ table. AreWaiting table.slots.entries };
}

impl SlotTable {
    /// The table of a blotter with these peers: each peer's session is new, and in. RepeatedPeer where two of them are the
    /// same, before any memory is asked for.
    #[tactic(auto, using(crate::proofs::WaitingLemmas::waiting_fresh))]
    pub fn new(alloc: Global, own: Text64, peers: &[Text64]) -> Result<SlotTable, SlotFault>
        ensures ok { IfOk result (λ table. table ≡ all_in own peers.now) }
        ensures repeated { (result ≡ Err SlotFault.RepeatedPeer) ↔ (IsDistinct same_text peers.now → ⊥) }
        ensures err { IfErr result (λ fault. (fault ≡ SlotFault.RepeatedPeer) ⊎ (fault ≡ SlotFault.NoMemory)) }
    {
        if !are_distinct(peers) {
            return Err(SlotFault::RepeatedPeer);
        }
        let slots = fresh_slots(alloc, own, peers)?;
        Ok(SlotTable { own, slots })
    }

    /// The blotter's CompID.
    pub fn own(&self) -> Text64
        ensures { result ≡ self.now.own }
    {
        self.own
    }

    /// Hands out the session of a peer, which is out then. UnknownPeer where the peer isn't listed, AlreadyOn where its
    /// session is out. No memory is taken.
    #[tactic(auto, using(crate::proofs::AnswerLemmas::answers))]
    pub fn check_out(&mut self, peer: &Text64) -> Result<Session, SlotFault>
        ensures answer { result ≡ checked_out self.old peer.now }
        ensures ok { OnOk result (self.new ≡ with_slot peer.now None self.old) }
        ensures unknown { (result ≡ Err SlotFault.UnknownPeer) ↔ (slot_of self.old peer.now ≡ None) }
        ensures already_on { (result ≡ Err SlotFault.AlreadyOn) ↔ (slot_of self.old peer.now ≡ Some None) }
        ensures err { OnErr result (self.new ≡ self.old) }

        // What is handed out is the peer's, waits for its Logon, and is out.
        ensures out { OnOk result (slot_of self.new peer.now ≡ Some None) }
        ensures waiting { IfOk result (IsWaiting peer.now) }
        ensures idle { IfOk result IsIdle }
    {
        take_out(&mut self.slots, peer)
    }

    /// Takes back the session of a peer. It waits for a Logon again, and keeps both numbers. No memory is taken.
    #[tactic(auto, using(crate::proofs::WaitingLemmas::waiting_with_slot))]
    pub fn check_in(&mut self, mut session: Session)
        requires { slot_of self.old session.peer ≡ Some None }
        ensures { self.new ≡ with_slot session.peer (Some (waiting_again session)) self.old }
    {
        session.wait_again();
        put_in(&mut self.slots, session);
    }

    /// Takes back the session of a peer where that is out, as `check_in` does, and else leaves the table as it is. No memory is taken.
    pub fn take_back(&mut self, session: Session)
        ensures out { slot_of self.old session.peer ≡ Some None → self.new ≡ with_slot session.peer (Some (waiting_again session)) self.old }
        ensures other { (slot_of self.old session.peer ≡ Some None → ⊥) → self.new ≡ self.old }
    {
        if is_out(&self.slots, session.peer()) {
            self.check_in(session);
        }
    }
}

// Whether the session of a listed peer is out.
fn is_out(slots: &IndexMap<Text64, Option<Session>>, peer: &Text64) -> bool
    ensures { (result ≡ true) ↔ (lookup (same_text peer.now) slots.now.entries ≡ Some None) }
{
    matches!(slots.get(peer), Some(None))
}

// Takes the session of a peer out of its slot.
#[tactic(auto, using(std::proofs::lemmas::Map::Steps::set_value_same))]
fn take_out(
    slots: &mut IndexMap<Text64, Option<Session>>,
    peer: &Text64,
) -> Result<Session, SlotFault>
    ensures answer { result ≡ answer_of (lookup (same_text peer.now) slots.old.entries) }
    ensures ok { OnOk result (slots.new.entries ≡ set_value (same_text peer.now) slots.old.entries None) }
    ensures err { OnErr result (slots.new.entries ≡ slots.old.entries) }
{
    let Some(slot) = slots.get_mut(peer) else {
        return Err(SlotFault::UnknownPeer);
    };
    let Some(session) = slot.take() else {
        return Err(SlotFault::AlreadyOn);
    };
    Ok(session)
}

// Puts a session into its peer's slot.
fn put_in(slots: &mut IndexMap<Text64, Option<Session>>, session: Session)
    requires { is_some (lookup (same_text session.peer) slots.old.entries) ≡ true }
    ensures { slots.new.entries ≡ set_value (same_text session.peer) slots.old.entries (Some session) }
{
    let slot = slots.get_mut(session.peer()).unwrap();
    *slot = Some(session);
}

// The slots of peers that differ, each with a new session.
fn fresh_slots(
    alloc: Global,
    own: Text64,
    peers: &[Text64],
) -> Result<IndexMap<Text64, Option<Session>>, NoMemory>
    requires { IsDistinct same_text peers.now }
    ensures { IfOk result (λ slots. slots.entries ≡ fresh_slots own peers.now) }
{
    let mut slots = IndexMap::with_capacity(alloc, peers.len())?;
    for peer in peers {
        slots.insert(*peer, Some(Session::new(own, *peer)))?;
    }
    Ok(slots)
}

//! Where the messages of a connection are kept.
ghost use Rattle.std.specs.Prelude.{◌≡◌, IsOk, OnOk, true};
ghost use Rattle.blot_desk.specs.Keeping.{IsSynced};
ghost use Rattle.blot_gateway.specs.Counting.{CountsItself};

use blot_desk::{Desk, KeepFault};
use blot_gateway::{Clock, FrameKeeper, Heard, MessageStore, RecordHead, StoreFault};
use blot_session::Met;
use blot_sockets::SystemClock;
use blot_tag::Frame;
use blot_types::Text64;
use std::alloc::Global;
use std::marker::Model;
use std::sync::ledger::Ledger;
use std::sync::{Mutex, Wait};
use std::time;

/// What is noted of a connection whose messages are kept.
#[derive(Drop)]
pub struct PeerNotes {
    own: Text64,
    noted: Mutex<Noted>,
}

// Whose messages are kept, how many records of their own kinds there are of that peer, and whether something couldn't be kept: then
// nothing may be told any more.
#[derive(Drop)]
struct Noted {
    peer: Option<Text64>,
    records: u64,
    is_lost: bool,
}

impl PeerNotes {
    /// Those of a connection whose peer isn't known yet, to the blotter of this CompID.
    pub fn new(own: Text64) -> PeerNotes {
        let noted = Mutex::new(Noted {
            peer: None,
            records: 0,
            is_lost: false,
        });
        PeerNotes { own, noted }
    }

    /// From now on the messages are this peer's, of whom there are so many records.
    pub(crate) fn begin<R: Wait>(&self, rt: &R, peer: Text64, records: u64) {
        let mut noted = self.noted.lock(rt);
        noted.peer = Some(peer);
        noted.records = records;
    }

    /// How many records there are of the peer.
    pub(crate) fn records<R: Wait>(&self, rt: &R) -> u64 {
        self.noted.lock(rt).records
    }

    // That something couldn't be kept.
    fn lose<R: Wait>(&self, rt: &R) {
        self.noted.lock(rt).is_lost = true;
    }

    // Whether something couldn't be kept.
    fn is_lost<R: Wait>(&self, rt: &R) -> bool {
        self.noted.lock(rt).is_lost
    }

    // What the next record of the peer begins with; none of a peer that isn't known.
    fn next_head<R: Wait + time::Clock>(&self, rt: &R) -> Option<RecordHead> {
        let (peer, records) = {
            let noted = self.noted.lock(rt);
            (noted.peer, noted.records)
        };
        Some(RecordHead {
            own: self.own,
            party: peer?,
            number: records.saturating_add(1),
            now: SystemClock::new(rt).now(),
        })
    }

    // That one record more was kept.
    fn count<R: Wait>(&self, rt: &R) {
        let mut noted = self.noted.lock(rt);
        noted.records = noted.records.saturating_add(1);
    }
}

/// Keeps the messages of a connection at the desk, beside the events: those that its session sends, those that brought no event, and
/// the session's numbers. A desk without a journal keeps none. A contract sees nothing of it.
#[derive(Drop)]
pub struct PeerStore<'a, R, L: Ledger, K: FrameKeeper> {
    rt: &'a R,
    alloc: Global,
    desk: &'a Desk<L, K>,
    notes: &'a PeerNotes,
}

impl<'a, R, L: Ledger, K: FrameKeeper> Model for PeerStore<'a, R, L, K> {
    ghost use Rattle.std.specs.Prelude.{⊤};

    ghost Value = { ⊤ };

    ghost view = { λ store. tt };
}

impl<'a, R, L: Ledger, K: FrameKeeper> PeerStore<'a, R, L, K> {
    /// The store of a connection of which this is noted.
    pub fn new(rt: &'a R, alloc: Global, desk: &'a Desk<L, K>, notes: &'a PeerNotes) -> Self {
        PeerStore {
            rt,
            alloc,
            desk,
            notes,
        }
    }
}

impl<'a, R: Wait + time::Clock, L: Ledger, K: FrameKeeper> PeerStore<'a, R, L, K> {
    /// Keeps a frame of which no command was delivered, and the session's numbers where they are new.
    pub(crate) fn hear(&self, frame: &Frame, heard: Heard) {
        self.lose_unless(self.keep_heard(frame, heard));
    }

    /// Keeps a frame whose command the desk didn't take.
    pub(crate) fn keep_declined(&self, frame: &Frame) {
        self.lose_unless(self.keep_wrapped(frame));
    }

    /// Keeps the numbers of the session: the one that it expects, and that of the next message that it sends.
    pub(crate) fn keep_numbers(&self, expected: u64, next: u64) {
        self.lose_unless(self.keep_both(expected, next));
    }

    // Nothing may be told any more where something couldn't be kept.
    fn lose_unless(&self, kept: Result<(), StoreFault>) {
        if kept.is_err() {
            self.notes.lose(self.rt);
        }
    }

    // Keeps a frame, as it is where the session took it, and then the session's numbers where they are new.
    fn keep_heard(&self, frame: &Frame, heard: Heard) -> Result<(), StoreFault> {
        if !K::is_kept() {
            return Ok(());
        }
        match heard.met {
            Met::Taken => self.keep_plain(frame.text())?,
            _ => self.keep_wrapped(frame)?,
        }
        if heard.is_renumbered {
            self.keep_both(heard.expected, heard.next)?;
        }
        Ok(())
    }

    // Keeps a frame within a record, where it fits into one.
    fn keep_wrapped(&self, frame: &Frame) -> Result<(), StoreFault> {
        if !K::is_kept() {
            return Ok(());
        }
        let Some(head) = self.notes.next_head(self.rt) else {
            return Err(StoreFault);
        };
        match K::wrapped_record(self.alloc, &head, frame) {
            Ok(Some(text)) => self.note_record(&text),
            Ok(None) => Ok(()),
            Err(_) => Err(StoreFault),
        }
    }

    // Keeps the two numbers of the session.
    fn keep_both(&self, expected: u64, next: u64) -> Result<(), StoreFault> {
        if !K::is_kept() {
            return Ok(());
        }
        let Some(head) = self.notes.next_head(self.rt) else {
            return Err(StoreFault);
        };
        match K::numbers_record(self.alloc, &head, expected, next) {
            Ok(Some(text)) => self.note_record(&text),
            _ => Err(StoreFault),
        }
    }

    // Puts a record of its own kind behind what is kept, and counts it.
    fn note_record(&self, text: &[u8]) -> Result<(), StoreFault>
        requires { K.spells_none text.now }
    {
        stored(self.desk.note(self.rt, text))?;
        self.notes.count(self.rt);
        Ok(())
    }
}

impl<'a, R: Wait, L: Ledger, K: FrameKeeper> PeerStore<'a, R, L, K> {
    // Keeps a frame as it is.
    fn keep_plain(&self, text: &[u8]) -> Result<(), StoreFault>
        ensures { OnOk result (CountsItself K.spells_none K.numbers_after text.now) }
    {
        match K::keeps_plain(self.alloc, text) {
            Ok(true) => stored(self.desk.note(self.rt, text)),
            _ => Err(StoreFault),
        }
    }
}

impl<'a, R: Wait, L: Ledger, K: FrameKeeper> MessageStore for PeerStore<'a, R, L, K> {
    ghost use Rattle.blot_gateway.specs.Counting.{CountsItself};
    ghost use Rattle.blot_lanes.specs.Storing.{StoresAt};

    // What is put counts itself, and after a sync nothing is there that isn't durable.
    ghost keeps = { λ before stored after. StoresAt K.IsKept (CountsItself K.spells_none K.numbers_after) K.events K.durable stored };

    fn put(&mut self, text: &[u8]) -> Result<(), StoreFault> {
        if !K::is_kept() {
            return Ok(());
        }
        if self.notes.is_lost(self.rt) {
            return Err(StoreFault);
        }
        self.keep_plain(text)
    }

    fn sync(&mut self) -> Result<(), StoreFault> {
        if !K::is_kept() {
            return Ok(());
        }
        if self.notes.is_lost(self.rt) {
            return Err(StoreFault);
        }
        synced(self.rt, self.desk)
    }
}

// Syncs a desk, as a store tells it.
fn synced<R: Wait, L: Ledger, K: FrameKeeper>(rt: &R, desk: &Desk<L, K>) -> Result<(), StoreFault>
    ensures { OnOk result (IsSynced K.events K.durable) }
{
    match desk.sync(rt) {
        Ok(()) => Ok(()),
        Err(_) => Err(StoreFault),
    }
}

// What a keeper did, as a store tells it.
fn stored(kept: Result<(), KeepFault>) -> Result<(), StoreFault>
    ensures { OnOk result (IsOk kept) }
{
    match kept {
        Ok(()) => Ok(()),
        Err(_) => Err(StoreFault),
    }
}

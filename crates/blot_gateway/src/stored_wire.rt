//! A wire over a store of messages.
ghost use Rattle.std.specs.Prelude.{◌≡◌, ◌==◌, ◌^◌, ◌-◌, OnOk, min, length};
ghost use Rattle.blot_gateway.specs.Storing.{Readies, Stored, Storing, StoringDoes};
ghost use Rattle.blot_gateway.specs.Storing.Stored.{Put, Synced};

use crate::{Reading, Wire, Writing};
use std::marker::Model;

/// Nothing is kept or made durable any more.
#[derive(Clone, Copy, Debug, PartialEq, Eq)]
pub struct StoreFault;

/// Where the messages of a session are kept. This project's rule: what is told is durable first.
pub trait MessageStore {
    /// A store, something that it does, and the store after that.
    ghost keeps: { Self → Stored → Self → Type 0 };

    /// Puts a message, which is sent next, behind what is kept.
    fn put(&mut self, text: &[u8]) -> Result<(), StoreFault>
        ensures { OnOk result (keeps self.old (Put text.now) self.new) };

    /// Makes all durable that was taken so far.
    fn sync(&mut self) -> Result<(), StoreFault>
        ensures { OnOk result (keeps self.old Synced self.new) };
}

/// A wire over a store: before each read and each write the store is synced, and a message is put there before it is written. Where the
/// store fails, the read or the write fails, and the wire isn't asked.
#[derive(Drop)]
pub struct StoredWire<W, S> {
    wire: W,
    store: S,
    // How many bytes of the message that is being written are left.
    left: usize,
    // How many reads and writes failed since the store did.
    faults: u64,
}

impl<W, S> Model for StoredWire<W, S> {
    ghost use Rattle.blot_gateway.specs.Storing.{Storing};

    ghost Value = { Storing W S };

    ghost view = { λ stored. record { wire = stored.wire; store = stored.store; left = stored.left; faults = stored.faults } };
}

impl<W, S> StoredWire<W, S> {
    /// A wire over a store.
    pub fn new(wire: W, store: S) -> StoredWire<W, S>
        ensures { result ≡ record { wire = wire; store = store; left = 0; faults = 0 } }
    {
        StoredWire {
            wire,
            store,
            left: 0,
            faults: 0,
        }
    }
}

impl<W: Wire, S: MessageStore> StoredWire<W, S> {
    // Makes the store ready for a write of a message, or of what is left of one.
    fn make_ready(&mut self, text: &[u8]) -> Result<(), StoreFault>
        ensures ready { OnOk result (Readies S.keeps (self.old.left == length text.now) text.now self.old.store self.new.store) }
        ensures wire { self.new.wire ≡ self.old.wire }
        ensures left { self.new.left ≡ self.old.left }
        ensures faults { self.new.faults ≡ self.old.faults }
    {
        if self.left != text.len() {
            self.store.put(text)?;
        }
        self.store.sync()
    }
}

impl<W: Wire, S: MessageStore> Wire for StoredWire<W, S> {
    ghost use Rattle.std.specs.Prelude.{◌+◌, ◌-◌, ◌^◌, min};
    ghost use Rattle.blot_gateway.specs.Storing.{StoringDoes};

    ghost does = { StoringDoes W.does S.keeps };

    ghost failures = { λ stored. min (W.failures stored.wire + stored.faults) (2 ^ 64 - 1) };

    fn read_some(&mut self, buffer: &mut [u8]) -> Reading {
        match self.store.sync() {
            Ok(()) => self.wire.read_some(buffer),
            Err(StoreFault) => {
                self.faults = self.faults.saturating_add(1);
                Reading::Fault
            }
        }
    }

    fn write_some(&mut self, text: &[u8]) -> Writing {
        match self.make_ready(text) {
            Ok(()) => {
                let wrote = self.wire.write_some(text);
                if let Writing::Wrote(count) = wrote {
                    self.left = text.len() - count;
                }
                wrote
            }
            Err(StoreFault) => {
                self.faults = self.faults.saturating_add(1);
                Writing::Fault
            }
        }
    }

    fn faults(&self) -> u64 {
        self.wire.faults().saturating_add(self.faults)
    }
}

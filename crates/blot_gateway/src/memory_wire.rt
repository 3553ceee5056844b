//! A wire in memory, for tests.
ghost use Rattle.std.specs.Prelude.{◌≡◌, ◌<◌, [], length, min, take};
ghost use Rattle.blot_gateway.specs.Memory.{MemoryDoes, PassesNothing};
ghost use Rattle.blot_gateway.specs.Wires.{Counts, CountsRead, ReadFits, read_by};
ghost use Rattle.blot_gateway.specs.Wires.Did.{Gave};

use crate::{Reading, Wire, Writing};
use std::alloc::Global;
use std::marker::Model;

/// A wire in memory, for tests. It gives the bytes that it was made with, keeps what is written to it, and fails where it is told to.
/// Out of memory, a write fails.
#[derive(Drop)]
pub struct MemoryWire {
    bytes: Vec<u8>,
    // How many of them were given.
    given: usize,
    // The most bytes of each read, from the first on.
    sizes: Vec<usize>,
    written: Vec<u8>,
    // The most bytes of a write.
    write_room: usize,
    reads: usize,
    writes: usize,
    failing_read: Option<usize>,
    failing_write: Option<usize>,
    faults: u64,
}

impl Model for MemoryWire {
    ghost use Rattle.std.specs.Prelude.{◌≤◌, drop, vec_len};
    ghost use Rattle.blot_gateway.specs.Memory.{InMemory};

    ghost Value = { InMemory };

    ghost view = { λ wire. record { left = drop wire.given wire.bytes.items; written = wire.written.items; faults = wire.faults } };

    ghost invariant = { λ wire. wire.given ≤ vec_len wire.bytes };
}

impl MemoryWire {
    /// A wire that gives these bytes, as many at each read as the buffer has room for, and takes each text whole.
    pub fn new(alloc: Global, bytes: Vec<u8>) -> MemoryWire
        ensures { result ≡ record { left = bytes.items; written = []; faults = 0 } }
    {
        MemoryWire {
            bytes,
            given: 0,
            sizes: Vec::new(alloc),
            written: Vec::new(alloc),
            write_room: usize::MAX,
            reads: 0,
            writes: 0,
            failing_read: None,
            failing_write: None,
            faults: 0,
        }
    }

    /// The most bytes of its first reads, from the very first on. At 0 nothing comes in time, even where no byte is left; after the last
    /// of them a read gives what the buffer has room for.
    pub fn set_reads(&mut self, sizes: Vec<usize>)
        ensures { self.new ≡ self.old }
    {
        self.sizes = sizes;
    }

    /// The most bytes that a write takes. One it always takes.
    pub fn set_write_room(&mut self, room: usize)
        ensures { self.new ≡ self.old }
    {
        self.write_room = room;
    }

    /// This read fails, counted from 0.
    pub fn fail_read(&mut self, read: usize)
        ensures { self.new ≡ self.old }
    {
        self.failing_read = Some(read);
    }

    /// This write fails, counted from 0.
    pub fn fail_write(&mut self, write: usize)
        ensures { self.new ≡ self.old }
    {
        self.failing_write = Some(write);
    }

    /// What was written so far.
    pub fn written(&self) -> &[u8]
        ensures { result.now ≡ self.now.written }
    {
        self.written.as_slice()
    }

    // Gives at most so many of the bytes that are left, or its end where none is.
    #[tactic(auto, using(crate::proofs::MemoryLemmas::left_given))]
    fn give(&mut self, size: usize, buffer: &mut [u8]) -> Reading
        requires some { 0 < size }
        requires room { 0 < length buffer.old }
        ensures gave { MemoryDoes self.old (Gave (read_by result buffer.new)) self.new }
        ensures within { ReadFits result (length buffer.new) }
        ensures counted { CountsRead result self.old.faults self.new.faults }
    {
        if self.given == self.bytes.len() {
            return Reading::End;
        }
        let count = copy_front(&self.bytes[self.given..], size, buffer);
        self.given += count;
        Reading::Got(count)
    }

    // Counts a failure, as far as 2^64 - 1.
    fn count_fault(&mut self)
        ensures counted { Counts self.old.faults self.new.faults }
        ensures passes { PassesNothing self.old self.new }
    {
        self.faults = self.faults.saturating_add(1);
    }
}

impl Wire for MemoryWire {
    ghost does = { MemoryDoes };

    ghost failures = { λ wire. wire.faults };

    fn read_some(&mut self, buffer: &mut [u8]) -> Reading {
        let read = self.reads;
        self.reads = read.saturating_add(1);
        if self.failing_read == Some(read) {
            self.count_fault();
            return Reading::Fault;
        }
        match self.sizes.get(read).copied() {
            Some(0) => Reading::Quiet,
            Some(size) => self.give(size, buffer),
            None => self.give(usize::MAX, buffer),
        }
    }

    fn write_some(&mut self, text: &[u8]) -> Writing {
        let write = self.writes;
        self.writes = write.saturating_add(1);
        let count = text.len().min(self.write_room.max(1));
        if self.failing_write != Some(write)
            && self.written.extend_from_slice(&text[..count]).is_ok()
        {
            return Writing::Wrote(count);
        }
        self.count_fault();
        Writing::Fault
    }

    fn faults(&self) -> u64 {
        self.faults
    }
}

// Copies the front of some bytes to the front of a buffer: how many, at most this size.
fn copy_front(bytes: &[u8], size: usize, buffer: &mut [u8]) -> usize
    ensures count { result ≡ min size (min (length bytes.now) (length buffer.old)) }
    ensures front { take result buffer.new ≡ take result bytes.now }
{
    let count = size.min(bytes.len().min(buffer.len()));
    buffer[..count].copy_from_slice(&bytes[..count]);
    count
}

//! A wire, a clock and a sink of one's own, which share a tape: each call is noted there, and does what that of the one in memory does.

use blot_desk::{DeskFault, Reply};
use blot_gateway::{Clock, ListSink, MemoryWire, Reading, Sink, Wire, Writing};
use blot_time::Moment;
use blot_types::Command;
use std::cell::Cell;

// What is noted: a digit for each call.
const READ: u64 = 1;

const WRITE: u64 = 2;

const CLOCK: u64 = 3;

const TAKE: u64 = 4;

/// The calls so far, a digit each: 1 a read, 2 a write, 3 the clock, 4 a command taken; and how many.
#[derive(Drop)]
pub struct Tape {
    calls: Cell<u64>,
    count: Cell<u32>,
}

impl Tape {
    /// Nothing was called yet.
    pub fn new() -> Tape {
        Tape {
            calls: Cell::new(0),
            count: Cell::new(0),
        }
    }

    /// The calls so far.
    pub fn calls(&self) -> u64 {
        self.calls.get()
    }

    // A call came.
    fn note(&self, call: u64) {
        let calls = self.calls.get().wrapping_mul(10).wrapping_add(call);
        self.calls.set(calls);
        self.count.set(self.count.get().wrapping_add(1));
    }
}

/// A wire in memory, of which each read and each write is noted.
#[derive(Drop)]
pub struct TapedWire<'a> {
    pub tape: &'a Tape,
    pub wire: MemoryWire,
}

impl Wire for TapedWire<'_> {
    ghost use Rattle.blot_gateway.specs.Memory.{MemoryDoes};

    ghost does = { λ before did after. MemoryDoes before.wire did after.wire };

    ghost failures = { λ taped. taped.wire.faults };

    fn read_some(&mut self, buffer: &mut [u8]) -> Reading {
        self.tape.note(READ);
        self.wire.read_some(buffer)
    }

    fn write_some(&mut self, text: &[u8]) -> Writing {
        self.tape.note(WRITE);
        self.wire.write_some(text)
    }

    fn faults(&self) -> u64 {
        self.wire.faults()
    }
}

/// A clock that tells as many seconds past 10:00 as calls were noted, its own among them.
#[derive(Drop)]
pub struct TapedClock<'a> {
    pub tape: &'a Tape,
    pub begin: Moment,
}

impl Clock for TapedClock<'_> {
    ghost ticks = { λ before moment after. Unit {0} };

    fn now(&mut self) -> Moment {
        self.tape.note(CLOCK);
        let past = i64::from(self.tape.count.get()).saturating_mul(1_000);
        let millis = self.begin.millis().saturating_add(past);
        Moment::from_millis(millis).unwrap_or(self.begin)
    }
}

/// A sink that answers by a list, of which each command is noted.
#[derive(Drop)]
pub struct TapedSink<'a> {
    pub tape: &'a Tape,
    pub sink: ListSink,
}

impl Sink for TapedSink<'_> {
    ghost use Rattle.blot_gateway.specs.Memory.{ListTakes};

    ghost takes = { λ before answered after. ListTakes before.sink answered after.sink };

    fn take(&mut self, command: Command) -> Result<Reply, DeskFault> {
        self.tape.note(TAKE);
        self.sink.take(command)
    }
}

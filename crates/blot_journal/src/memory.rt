//! A file in memory, for tests.
ghost use Rattle.std.specs.Prelude.{◌≡◌, ◌≤◌, [], ◌∷◌, List, Some, length, true, IfOk, IsTrue};
ghost use Rattle.blot_journal.specs.Device.{HasWritten};
ghost use Rattle.blot_journal.specs.Calls.{counts_now, durable_after, failures_in, leaves_after, left_after, only_now, seen_after};
ghost use Rattle.blot_journal.specs.Calls.Call.{Began};

use crate::ghost_calls::{BEGAN, CUT, GhostCalls, READ, SYNCED, WROTE};
use crate::{Device, DeviceFault};
use std::alloc::{AllocError as NoMemory, Global};
use std::marker::Model;

/// What was done to a file since its last sync. A crash may leave any part of it.
#[derive(Drop)]
pub enum Change {
    /// Bytes were written at a place.
    Write(usize, Vec<u8>),
    /// It was cut to a length.
    Cut(usize),
}

/// A file in memory that fails at a chosen call, and tells what a crash may leave of it. A contract sees its calls.
#[derive(Drop)]
pub struct MemoryDevice {
    alloc: Global,
    bytes: Vec<u8>,
    durable: Vec<u8>,
    changes: Vec<Change>,
    fails_in: Option<u64>,
    noted: GhostCalls,
}

impl Model for MemoryDevice {
    ghost use Rattle.std.specs.Prelude.{◌≡◌, ◌<◌, List, Some};
    ghost use Rattle.blot_journal.specs.Calls.{Call, coded_calls, durable_after, failures_in, leaves_after, seen_after};

    ghost Value = { List Call };

    ghost coded = { coded_calls };

    ghost view = { λ device. device.noted.calls };

    ghost invariant = { λ device. (device.bytes.items ≡ seen_after device.noted.calls)
        × (device.durable.items ≡ durable_after device.noted.calls)
        × leaves_after device.noted.calls (seen_after device.noted.calls)
        × (0 < failures_in device.noted.calls → device.fails_in ≡ Some 0) };
}

impl MemoryDevice {
    /// A file with these bytes, all of them on the disk. No call of it fails, or each one after so many.
    pub fn new(alloc: Global, bytes: &[u8], fails_in: Option<u64>) -> Result<MemoryDevice, NoMemory>
        ensures { IfOk result (λ device. device ≡ Began bytes.now ∷ []) }
    {
        let mut noted = GhostCalls::new();
        noted.note(&[BEGAN, 0, 1], bytes);
        Ok(MemoryDevice {
            alloc,
            bytes: bytes.to_vec(alloc)?,
            durable: bytes.to_vec(alloc)?,
            changes: Vec::new(alloc),
            fails_in,
            noted,
        })
    }

    /// The bytes that a read returns.
    pub fn bytes(&self) -> &[u8]
        ensures { result.now ≡ seen_after self.now }
    {
        &self.bytes
    }

    /// The bytes as they were at the last sync.
    pub fn durable(&self) -> &[u8]
        ensures { result.now ≡ durable_after self.now }
    {
        &self.durable
    }

    /// What was done since the last sync, or failed, the first change first.
    pub fn changes(&self) -> &[Change] {
        &self.changes
    }
}

// Whether this call fails: the chosen one, and each after it.
fn is_due(fails_in: &mut Option<u64>) -> bool
    ensures due { IsTrue result → fails_in.new ≡ Some 0 }
    ensures stays { fails_in.old ≡ Some 0 → IsTrue result }
{
    match *fails_in {
        None => false,
        Some(0) => true,
        Some(count) => {
            *fails_in = Some(count - 1);
            false
        }
    }
}

// A file with these bytes written at this place.
fn written(alloc: Global, old: &[u8], at: usize, bytes: &[u8]) -> Result<Vec<u8>, NoMemory>
    requires { at ≤ length old.now }
    ensures { IfOk result (λ new. HasWritten old.now at bytes.now new.items) }
{
    let mut new = old[..at].to_vec(alloc)?;
    new.extend_from_slice(bytes)?;
    if bytes.len() < old.len() - at {
        new.extend_from_slice(&old[at + bytes.len()..])?;
    }
    Ok(new)
}

impl Device for MemoryDevice {
    ghost seen = { λ calls. seen_after calls };

    ghost may_leave = { λ calls. leaves_after calls };

    ghost moment = { λ calls. length calls };

    ghost left_since = { λ calls. left_after calls };

    ghost failures = { λ calls. failures_in calls };

    ghost is_readable = { λ calls. true };

    ghost counts_now = { λ calls since file early left. counts_now calls since file early left };

    ghost only_now = { λ calls file left. only_now calls file left };

    fn len(&self) -> usize {
        self.bytes.len()
    }

    fn read_at(&mut self, at: usize, buffer: &mut [u8]) -> Result<(), DeviceFault> {
        if is_due(&mut self.fails_in) {
            self.noted.note(&[READ, 0, 0], &[]);
            return Err(DeviceFault::Failed);
        }
        self.noted.note(&[READ, 0, 1], &[]);
        buffer.copy_from_slice(&self.bytes[at..at + buffer.len()]);
        Ok(())
    }

    fn write_at(&mut self, at: usize, bytes: &[u8]) -> Result<(), DeviceFault> {
        let next = written(self.alloc, &self.bytes, at, bytes)?;
        let change = Change::Write(at, bytes.to_vec(self.alloc)?);
        self.changes.reserve(1)?;
        self.changes.push_reserved(change);
        if is_due(&mut self.fails_in) {
            self.noted.note(&[WROTE, at as u64, 0], bytes);
            return Err(DeviceFault::Failed);
        }
        self.noted.note(&[WROTE, at as u64, 1], bytes);
        self.bytes = next;
        Ok(())
    }

    fn cut(&mut self, len: usize) -> Result<(), DeviceFault> {
        self.changes.reserve(1)?;
        self.changes.push_reserved(Change::Cut(len));
        if is_due(&mut self.fails_in) {
            self.noted.note(&[CUT, len as u64, 0], &[]);
            return Err(DeviceFault::Failed);
        }
        self.noted.note(&[CUT, len as u64, 1], &[]);
        self.bytes.truncate(len);
        Ok(())
    }

    fn sync(&mut self) -> Result<(), DeviceFault> {
        let durable = self.bytes.to_vec(self.alloc)?;
        if is_due(&mut self.fails_in) {
            self.noted.note(&[SYNCED, 0, 0], &[]);
            return Err(DeviceFault::Failed);
        }
        self.noted.note(&[SYNCED, 0, 1], &[]);
        self.durable = durable;
        self.changes.clear();
        Ok(())
    }
}

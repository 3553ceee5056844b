//! A real file. What a read returned when it was opened is kept until the first write, so that what a contract says of its bytes is
//! true of them; what a disk does with the calls is a premise, and not proved.
ghost use Rattle.std.specs.Prelude.{◌≡◌, ◌↔◌, ◌+◌, ◌<◌, ◌^◌, length, IfOk, IsNone, IsTrue, OnOk};
ghost use Rattle.blot_journal.specs.declared.file.FileFault.TheVariants.{NoMemory as OutOfMemory, Io};
ghost use Rattle.blot_journal.specs.Device.{Only};
ghost use Rattle.blot_journal.specs.Calls.{counts_now, failures_in, is_readable_after, leaves_after, left_after, only_now, seen_after};

use crate::ghost_calls::{BEGAN, CUT, GhostCalls, SYNCED, WROTE};
use crate::head::zeros;
use crate::{Device, DeviceFault};
use std::alloc::{AllocError as NoMemory, Global};
use std::fs::File;
use std::io;
use std::marker::Model;
use std::os::unix::fs::FileExt;

// The longest file, so that no place in it overflows.
const LEN_MAX: usize = (1 << 63) - 1;

/// Why a file can't be opened.
#[derive(Clone, Copy, Debug)]
pub enum FileFault {
    NoMemory,
    /// Another process has it.
    InUse,
    /// A longer file has the name under which it would be made.
    InTheWay,
    Io(io::Error),
}

impl From<NoMemory> for FileFault {
    ghost from_gives = { λ _ fault. fault ≡ OutOfMemory };

    fn from(_fault: NoMemory) -> FileFault {
        FileFault::NoMemory
    }
}

impl From<io::Error> for FileFault {
    ghost from_gives = { λ error fault. fault ≡ Io error };

    fn from(error: io::Error) -> FileFault {
        FileFault::Io(error)
    }
}

/// An open file of the system. A contract sees the calls that were made of it.
#[derive(Drop)]
pub struct FileDevice {
    alloc: Global,
    file: File,
    len: usize,
    // All that was read when it was opened, until the first write.
    read: Vec<u8>,
    // Why a call failed. From then on none is made.
    failure: Option<io::Error>,
    noted: GhostCalls,
}

impl Model for FileDevice {
    ghost use Rattle.std.specs.Prelude.{◌≡◌, ◌↔◌, IsNone, List, length, true};
    ghost use Rattle.blot_journal.specs.Calls.{Call, coded_calls, failures_in, is_readable_after, leaves_after, seen_after};

    ghost Value = { List Call };

    ghost coded = { coded_calls };

    ghost view = { λ device. device.noted.calls };

    ghost invariant = { λ device. (device.len ≡ length (seen_after device.noted.calls))
        × (is_readable_after device.noted.calls ≡ true → device.read.items ≡ seen_after device.noted.calls)
        × leaves_after device.noted.calls (seen_after device.noted.calls)
        × (IsNone device.failure ↔ (failures_in device.noted.calls ≡ 0)) };
}

impl FileDevice {
    /// A file that this process alone has. It is made durable as it is before it is read, since after a process was killed what a read
    /// returns needn't be on the disk yet. It takes as much memory as the file has bytes, until the first write.
    pub fn new(alloc: Global, file: File) -> Result<FileDevice, FileFault>
        ensures readable { IfOk result (λ device. IsTrue (is_readable_after device)) }
        ensures durable { IfOk result (λ device. Only (seen_after device) (leaves_after device)) }

        // And nothing else was there since it was opened.
        ensures fresh { IfOk result (λ device. Only (seen_after device) (left_after device 0)) }
    {
        file.sync_all()?;
        let read = read_all(alloc, &file)?;
        let mut noted = GhostCalls::new();
        noted.note(&[BEGAN, 0, 1], &read);
        Ok(FileDevice {
            alloc,
            file,
            len: read.len(),
            read,
            failure: None,
            noted,
        })
    }

    /// What the system said of the first call that failed, where one has failed.
    pub fn failure(&self) -> Option<io::Error>
        ensures { IsNone result ↔ (failures_in self.now ≡ 0) }
    {
        self.failure
    }
}

// All bytes of a file.
fn read_all(alloc: Global, file: &File) -> Result<Vec<u8>, FileFault> {
    let len = file.metadata()?.len();
    if len > LEN_MAX as u64 {
        return Err(FileFault::Io(io::ErrorKind::FileTooLarge.into()));
    }
    let mut read = zeros(alloc, len as usize)?;
    file.read_exact_at(&mut read, 0)?;
    Ok(read)
}

// Writes bytes at a place, to their end.
fn write(file: &File, at: usize, bytes: &[u8]) -> io::Result<()>
    ensures { OnOk result (at + length bytes.now < 2 ^ 63) }
{
    if at > LEN_MAX || bytes.len() > LEN_MAX - at {
        return Err(io::ErrorKind::FileTooLarge.into());
    }
    file.write_all_at(bytes, at as u64)
}

impl Device for FileDevice {
    ghost seen = { λ calls. seen_after calls };

    ghost may_leave = { λ calls. leaves_after calls };

    ghost moment = { λ calls. length calls };

    ghost left_since = { λ calls. left_after calls };

    ghost failures = { λ calls. failures_in calls };

    ghost is_readable = { λ calls. is_readable_after calls };

    ghost counts_now = { λ calls since file early left. counts_now calls since file early left };

    ghost only_now = { λ calls file left. only_now calls file left };

    fn len(&self) -> usize {
        self.len
    }

    fn read_at(&mut self, at: usize, buffer: &mut [u8]) -> Result<(), DeviceFault> {
        buffer.copy_from_slice(&self.read[at..at + buffer.len()]);
        Ok(())
    }

    fn write_at(&mut self, at: usize, bytes: &[u8]) -> Result<(), DeviceFault> {
        let written = match self.failure {
            None => write(&self.file, at, bytes),
            Some(error) => Err(error),
        };
        self.read = Vec::new(self.alloc);
        match written {
            Ok(()) => {
                self.noted.note(&[WROTE, at as u64, 1], bytes);
                self.len = self.len.max(at + bytes.len());
                Ok(())
            }
            Err(error) => {
                self.noted.note(&[WROTE, at as u64, 0], bytes);
                self.failure = Some(error);
                Err(DeviceFault::Failed)
            }
        }
    }

    fn cut(&mut self, len: usize) -> Result<(), DeviceFault> {
        let cut = match self.failure {
            None => self.file.set_len(len as u64),
            Some(error) => Err(error),
        };
        match cut {
            Ok(()) => {
                self.noted.note(&[CUT, len as u64, 1], &[]);
                self.read.truncate(len);
                self.len = len;
                Ok(())
            }
            Err(error) => {
                self.noted.note(&[CUT, len as u64, 0], &[]);
                self.failure = Some(error);
                Err(DeviceFault::Failed)
            }
        }
    }

    fn sync(&mut self) -> Result<(), DeviceFault> {
        let synced = match self.failure {
            None => self.file.sync_data(),
            Some(error) => Err(error),
        };
        match synced {
            Ok(()) => {
                self.noted.note(&[SYNCED, 0, 1], &[]);
                Ok(())
            }
            Err(error) => {
                self.noted.note(&[SYNCED, 0, 0], &[]);
                self.failure = Some(error);
                Err(DeviceFault::Failed)
            }
        }
    }
}

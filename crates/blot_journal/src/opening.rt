//! The file of a journal, opened, or made where it isn't there.
ghost use Rattle.std.specs.Prelude.{IfOk, IsTrue};
ghost use Rattle.blot_journal.specs.Calls.{is_readable_after, leaves_after, left_after, seen_after};
ghost use Rattle.blot_journal.specs.Device.{Only};

use crate::head::{HEAD, empty_file};
use crate::{FileDevice, FileFault};
use std::alloc::Global;
use std::fs::{self, File, OpenOptions, TryLockError};
use std::io::{self, Write};
use std::os::unix::fs::OpenOptionsExt;

/// Opens the file of a journal for this process alone, and makes it where it isn't there. Its name is durable before it is used, also where a crash
/// came between the making of it and that.
pub fn open_file(rt: &HostRuntime, path: &str) -> Result<FileDevice, FileFault>
    ensures readable { IfOk result (λ device. IsTrue (is_readable_after device)) }
    ensures durable { IfOk result (λ device. Only (seen_after device) (leaves_after device)) }
    ensures fresh { IfOk result (λ device. Only (seen_after device) (left_after device 0)) }
{
    let file = match open(rt, path) {
        Err(error) if error.kind() == io::ErrorKind::NotFound => {
            if is_link(rt, path) {
                return Err(FileFault::Io(error));
            }
            make(rt, path)?;
            open(rt, path)?
        }
        opened => opened?,
    };
    match file.try_lock() {
        Ok(()) => {
            sync_folder(rt, path)?;
            FileDevice::new(rt.alloc(), file)
        }
        Err(TryLockError::WouldBlock) => Err(FileFault::InUse),
        Err(TryLockError::Error(error)) => Err(FileFault::Io(error)),
    }
}

fn open(rt: &HostRuntime, path: &str) -> io::Result<File> {
    OpenOptions::new().read(true).write(true).open(rt, path)
}

// Whether a link stands at a path: one at which no file is found leads nowhere.
fn is_link(rt: &HostRuntime, path: &str) -> bool {
    fs::symlink_metadata(rt, path).is_ok_and(|found| found.is_symlink())
}

// Makes a file with its whole head from its first moment: under another name first.
fn make(rt: &HostRuntime, path: &str) -> Result<(), FileFault> {
    let alloc = rt.alloc();
    let new = format!(in alloc; "{path}.new")?;
    remove_left(rt, new.as_str())?;
    let mut file = OpenOptions::new()
        .write(true)
        .create_new(true)
        .mode(0o600)
        .open(rt, new.as_str())?;
    file.write_all(&empty_file(alloc)?)?;
    file.sync_all()?;
    // One that was made meanwhile isn't begun anew.
    if fs::symlink_metadata(rt, path).is_ok() {
        return Err(FileFault::InUse);
    }
    Ok(fs::rename(rt, new.as_str(), path)?)
}

// Removes what a crash left of a file that was being made.
fn remove_left(rt: &HostRuntime, new: &str) -> Result<(), FileFault> {
    match fs::symlink_metadata(rt, new) {
        Ok(found) if found.is_file() && found.len() <= HEAD as u64 => Ok(fs::remove_file(rt, new)?),
        Ok(_) => Err(FileFault::InTheWay),
        Err(error) if error.kind() == io::ErrorKind::NotFound => Ok(()),
        Err(error) => Err(FileFault::Io(error)),
    }
}

// Makes durable which names the folder of a file has.
fn sync_folder(rt: &HostRuntime, path: &str) -> Result<(), FileFault> {
    let folder = match path.rfind('/') {
        None => ".",
        Some(0) => "/",
        Some(end) => &path[..end],
    };
    Ok(File::open(rt, folder)?.sync_all()?)
}

//! What the program does.
ghost use Rattle.std.specs.Prelude.{◌≡◌, false, IsTrue};
ghost use Rattle.blot_journal.specs.Calls.{is_readable_after};

use crate::rows::{ROW, count_rows, row_of};
use blot_journal::{FileDevice, FileFault, Journal, JournalFault, RecoveryFault, open_file};
use std::{env, io};

/// Runs the program: whether all was done that its words ask for.
pub(crate) fn run(rt: &HostRuntime) -> io::Result<bool> {
    let mut words = env::args(rt)?;
    let _program = words.next();
    let (Some(path), Some(batches), Some(rows)) = (words.next(), words.next(), words.next()) else {
        return Ok(false);
    };
    let (Ok(batches), Ok(rows)) = (
        batches.as_str().parse::<u64>(),
        rows.as_str().parse::<u64>(),
    ) else {
        return Ok(false);
    };
    let device = match open_file(rt, path.as_str()) {
        Ok(device) => device,
        Err(fault) => return tell_unopened(rt, fault),
    };
    match Journal::recover(rt.alloc(), device) {
        Ok(mut journal) => go_on(rt, &mut journal, batches, rows),
        Err((fault, _device)) => tell_refused(rt, fault),
    }
}

fn tell_unopened(rt: &HostRuntime, fault: FileFault) -> io::Result<bool> {
    match fault {
        FileFault::NoMemory => println!(rt; "no memory")?,
        FileFault::InUse => println!(rt; "in use")?,
        FileFault::InTheWay => println!(rt; "in the way")?,
        FileFault::Io(error) => println!(rt; "can't be opened: {error}")?,
    }
    Ok(false)
}

fn tell_refused(rt: &HostRuntime, fault: RecoveryFault) -> io::Result<bool> {
    match fault {
        RecoveryFault::NoMemory => println!(rt; "no memory")?,
        RecoveryFault::Failed => println!(rt; "the disk fails")?,
        RecoveryFault::NoJournal => println!(rt; "no journal")?,
        RecoveryFault::Damaged(end) => println!(rt; "damaged at byte {end}")?,
    }
    Ok(false)
}

// Takes up what was found, as a day does: what stands behind it is cut off once the rows are read. Then tells it, and appends the batches.
fn go_on(
    rt: &HostRuntime,
    journal: &mut Journal<FileDevice>,
    batches: u64,
    rows: u64,
) -> io::Result<bool>
    requires unbroken { journal.old.is_broken ≡ false }
    requires readable { IsTrue (is_readable_after journal.old.device) }
{
    let mut text = vec![in rt.alloc(); 0; journal.len()]?;
    if journal.read(0, &mut text).is_err() {
        println!(rt; "can't be read")?;
        return Ok(false);
    }
    let Some(mut count) = count_rows(&text) else {
        println!(rt; "other rows")?;
        return Ok(false);
    };
    drop(text);
    if let Err(fault) = journal.trim() {
        tell_stopped(rt, journal, fault)?;
        return Ok(false);
    }
    println!(rt; "found {count}")?;
    for _ in 0..batches {
        if let Err(fault) = append_batch(journal, count, rows) {
            tell_stopped(rt, journal, fault)?;
            return Ok(false);
        }
        count = count.wrapping_add(rows);
        println!(rt; "durable {count}")?;
    }
    Ok(true)
}

// Appends the rows that follow, and makes them durable.
fn append_batch(
    journal: &mut Journal<FileDevice>,
    count: u64,
    rows: u64,
) -> Result<(), JournalFault> {
    for row in 0..rows {
        journal.reserve(ROW)?;
        journal.append(&row_of(count.wrapping_add(row).wrapping_add(1)));
    }
    journal.sync()
}

fn tell_stopped(
    rt: &HostRuntime,
    journal: &Journal<FileDevice>,
    fault: JournalFault,
) -> io::Result<()> {
    match (fault, journal.device().failure()) {
        (JournalFault::Failed, Some(error)) => println!(rt; "can't be written: {error}"),
        (fault, _) => println!(rt; "stopped: {fault:?}"),
    }
}

//! Runs over the file of a journal: a day that is kept in it, and what is told of one.
ghost use Rattle.std.specs.Prelude.{◌≡◌, ◌≢◌, true, IfErr, IfOk, OnOk};
ghost use Rattle.std.specs.Io.KnownBytes.{IsAtEnd, Keeps};
ghost use Rattle.std.specs.List.{IsDistinct};
ghost use Rattle.blot_types.specs.Keys.{same_text};
ghost use Rattle.blot_desk.specs.Desk.{IsRun, events_of};
ghost use Rattle.blot_journal.specs.File.{text_of};
ghost use Rattle.blot_stream.specs.Texts.{AppendsOf};
ghost use Rattle.blot_stream.specs.declared.outcome.Outcome.TheVariants.{BadWords, NoMemory as OutOfMemory};
ghost use Rattle.blot_operator.specs.OpenDay.{EndsOf};
ghost use Rattle.blot_diary.specs.Diary.{desk_events};
ghost use Rattle.blot_recovery.specs.Received.{received_of};
ghost use Rattle.blot_trail.specs.Audit.{trail_of};
ghost use Rattle.blot_arguments.specs.Words.{IsApart};
ghost use Rattle.blotter_main.specs.Failure.{outcome_of};
ghost use Rattle.blotter_main.specs.Running.{AnswersDesk, AuditsJournal, ServesJournal};

use crate::failure::{Failure, system_words};
use crate::journals::Journals;
use crate::running::{answer, bind};
use blot_desk::Held;
use blot_diary::Beginning;
use blot_journal::{FileDevice, FileFault, HEAD, JournalFault, RecoveryFault, text_in};
use blot_recovery::{InMemory, OPERATOR_SEATS, OpenFault, RecoverFault, received};
use blot_time::Day;
use blot_trail::audit;
use blot_types::Text64;
use blotter::{Door, KeptFault, ReplayFault, ServeFault, journal_desk, serve_kept_day};
use log::Log;
use std::alloc::{AllocError as NoMemory, Global};
use std::fs::{File, Files};
use std::io::{self, ErrorKind, Read, Write};
use std::marker::Brand;
use std::net::Net;
use std::os::fd::OwnedFd;
use std::str;
use std::sync::Wait;
use std::sync::ledger::Blank;
use std::thread::Threads;
use std::time::Clock;

/// Serves an open day over a port of 127.0.0.1, and keeps it in a file.
pub(crate) fn keep_day<J: Journals, T, R: Read, W: Write>(
    journals: &J,
    rt: &T,
    alloc: Global,
    path: String,
    own: Text64,
    peers: &[Text64],
    day: Day,
    port: u16,
    lanes: u16,
    input: &mut R,
    output: &mut W,
) -> Result<(), Failure>
where
    T: Threads + Wait + Net + Clock + Log + Sync,
    T::Listener: Sync,
    T::Stream: Send,
    OwnedFd: From<T::Listener>,
    requires peers { IsDistinct same_text peers.now }
    requires apart { IsApart own peers.now }
    ensures served { OnOk result (ServesJournal own (R.remaining input.old) day (W.contents output.old) (W.contents output.new)) }
    ensures read_to_the_end { OnOk result (EndsOf true (R.remaining input.old) (R.remaining input.new)) }
    ensures words { IfErr result (λ failure. outcome_of failure ≢ BadWords) }
{
    let device = match journals.open(path.as_str()) {
        Ok(device) => device,
        Err(fault) => return Err(unopened(alloc, fault, path)),
    };
    let (listener, handle) = match bind(rt, port) {
        Ok(opened) => opened,
        Err(failure) => return Err(failure),
    };
    let door = Door::new(handle);
    let blank = Blank::new(peers.len() as u64 + u64::from(OPERATOR_SEATS));
    let kept = serve_kept_day::<Brand, _, _, _, _, _, _>(
        rt, alloc, blank, device, &listener, &door, lanes, own, peers, day, input, output,
    );
    match kept {
        Ok(_) => Ok(()),
        Err((fault, device)) => Err(unkept(alloc, fault, device, path)),
    }
}

/// Why the file of a journal isn't opened.
pub(crate) fn unopened(alloc: Global, fault: FileFault, path: String) -> Failure
    ensures words { outcome_of result ≢ BadWords }
{
    match fault {
        FileFault::NoMemory => Failure::NoMemory,
        FileFault::InUse => Failure::InUse(path),
        FileFault::InTheWay => Failure::InTheWay(path),
        FileFault::Io(error) if error.kind() == ErrorKind::OutOfMemory => Failure::NoMemory,
        FileFault::Io(error) => match system_words(alloc, &error) {
            Ok(why) => Failure::NoFile(path, why),
            Err(_) => Failure::NoMemory,
        },
    }
}

/// Why a day isn't kept, or what it met. Where the file couldn't be written, that is the reason of all else.
pub(crate) fn unkept(
    alloc: Global,
    fault: KeptFault,
    device: Option<FileDevice>,
    path: String,
) -> Failure
    ensures words { outcome_of result ≢ BadWords }
{
    if let Some(error) = failure_of(&device) {
        drop(device);
        return match system_words(alloc, &error) {
            Ok(why) => Failure::Unwritable(path, why),
            Err(_) => Failure::NoMemory,
        };
    }
    drop(device);
    match fault {
        KeptFault::Opening(OpenFault::File(fault)) => unrecovered(fault, path),
        KeptFault::Opening(OpenFault::Text(fault)) => untaken(alloc, &fault, path),
        KeptFault::Opening(OpenFault::Write(JournalFault::NoMemory)) => Failure::NoMemory,
        KeptFault::Opening(OpenFault::Write(_)) => Failure::Served(ServeFault::Lines(
            ReplayFault::Journal,
        )),
        KeptFault::Serving(fault) => Failure::Served(fault),
    }
}

// What the system said of the first call of a file that failed, if one has failed.
fn failure_of(device: &Option<FileDevice>) -> Option<io::Error> {
    match device {
        Some(device) => device.failure(),
        None => None,
    }
}

// Why a file isn't that of a journal.
fn unrecovered(fault: RecoveryFault, path: String) -> Failure
    ensures words { outcome_of result ≢ BadWords }
{
    match fault {
        RecoveryFault::NoMemory => Failure::NoMemory,
        RecoveryFault::Failed => Failure::Unreadable(path),
        RecoveryFault::NoJournal => Failure::NoJournal(path),
        RecoveryFault::Damaged(place) => Failure::Damaged(path, place),
    }
}

// Why the text of a journal isn't taken up. A place of the text is one of the file behind its head.
fn untaken(alloc: Global, fault: &RecoverFault, path: String) -> Failure
    ensures words { outcome_of result ≢ BadWords }
{
    match fault {
        RecoverFault::NoMemory => Failure::NoMemory,
        RecoverFault::Unreadable => Failure::Unreadable(path),
        RecoverFault::Another(found) => another(alloc, found, path),
        RecoverFault::Unlisted(peer) => unlisted(alloc, peer, path),
        RecoverFault::Damaged(place) => Failure::Damaged(path, place.saturating_add(HEAD)),
    }
}

// That a journal is of another blotter, or of another day.
fn another(alloc: Global, found: &Beginning, path: String) -> Failure
    ensures words { outcome_of result ≢ BadWords }
{
    match (
        shown(alloc, found.own.bytes()),
        shown(alloc, &found.day.write()),
    ) {
        (Ok(own), Ok(day)) => Failure::AnotherJournal(path, own, day),
        _ => Failure::NoMemory,
    }
}

// That a journal has a message of a peer that isn't listed.
fn unlisted(alloc: Global, peer: &Text64, path: String) -> Failure
    ensures words { outcome_of result ≢ BadWords }
{
    match shown(alloc, peer.bytes()) {
        Ok(peer) => Failure::Unlisted(path, peer),
        Err(_) => Failure::NoMemory,
    }
}

// A text, which is ASCII.
fn shown(alloc: Global, text: &[u8]) -> Result<String, NoMemory> {
    String::from_str(alloc, str::from_utf8(text).unwrap_or("?"))
}

/// Answers the lines of the input at the desk that a journal leads to. Its file is only read, and may be in use.
pub(crate) fn open_journal<F: Files, R: Read, W: Write>(
    alloc: Global,
    files: &F,
    path: String,
    own: Text64,
    peers: &[Text64],
    input: &mut R,
    output: &mut W,
) -> Result<(), Failure>
    requires peers { IsDistinct same_text peers.now }
    requires apart { IsApart own peers.now }
    ensures told { OnOk result (AnswersDesk (R.remaining input.old) (W.contents output.old) (W.contents output.new)) }
    ensures read_to_the_end { OnOk result (IsAtEnd (R.remaining input.new)) }
    ensures words { IfErr result (λ failure. outcome_of failure ≢ BadWords) }
{
    let file = match read_file(alloc, files, path.as_str()) {
        Ok(file) => file,
        Err(error) => return Err(unread(alloc, &error, path)),
    };
    let mut held = desk_in(alloc, &file, path, own, peers)?;
    let answered = answer(alloc, &mut held, input, output);
    drop(held);
    answered
}

// The desk that the bytes of a journal's file lead to.
fn desk_in(
    alloc: Global,
    file: &[u8],
    path: String,
    own: Text64,
    peers: &[Text64],
) -> Result<Held, Failure>
    requires peers { IsDistinct same_text peers.now }
    requires apart { IsApart own peers.now }
    ensures events { IfOk result (λ held. events_of held.history ≡ desk_events (text_of file.now)) }
    ensures run { IfOk result IsRun }
    ensures words { IfErr result (λ failure. outcome_of failure ≢ BadWords) }
{
    let text = match text_in(file) {
        Ok(text) => text,
        Err(fault) => return Err(unrecovered(fault, path)),
    };
    let blank = Blank::new(peers.len() as u64 + u64::from(OPERATOR_SEATS));
    match journal_desk::<Brand>(alloc, blank, text, own, peers) {
        Ok(held) => Ok(held),
        Err(fault) => Err(untaken(alloc, &fault, path)),
    }
}

/// Tells the trail of what a journal received, as if that were a capture. Its file is only read, and may be in use.
pub(crate) fn audit_journal<F: Files, W: Write>(
    alloc: Global,
    files: &F,
    path: String,
    own: Text64,
    peers: &[Text64],
    output: &mut W,
) -> Result<(), Failure>
    requires peers { IsDistinct same_text peers.now }
    ensures wrote { OnOk result (AuditsJournal own peers.now (W.contents output.old) (W.contents output.new)) }
    ensures no_memory { IfErr result (λ failure. outcome_of failure ≡ OutOfMemory → Keeps (W.contents output.old) (W.contents output.new)) }
    ensures words { IfErr result (λ failure. outcome_of failure ≢ BadWords) }
{
    let file = match read_file(alloc, files, path.as_str()) {
        Ok(file) => file,
        Err(error) => return Err(unread(alloc, &error, path)),
    };
    let came = received_in(alloc, &file, path, own)?;
    drop(file);
    let mut capture = came.as_slice();
    match audit(alloc, &mut capture, output, own, peers) {
        Ok(()) => Ok(()),
        Err(fault) => Err(Failure::Stopped(fault)),
    }
}

// What the journal in the bytes of a file received: nothing before its first frame.
fn received_in(alloc: Global, file: &[u8], path: String, own: Text64) -> Result<Vec<u8>, Failure>
    ensures received { IfOk result (λ received. received.items ≡ received_of own (text_of file.now)) }
    ensures words { IfErr result (λ failure. outcome_of failure ≢ BadWords) }
{
    let text = match text_in(file) {
        Ok(text) => text,
        Err(fault) => return Err(unrecovered(fault, path)),
    };
    if text.is_empty() {
        return Ok(Vec::new(alloc));
    }
    let mut text = InMemory { text };
    match received(alloc, &mut text, own) {
        Ok(received) => Ok(received),
        Err(fault) => Err(untaken(alloc, &fault, path)),
    }
}

// All bytes of a file.
fn read_file<F: Files>(alloc: Global, files: &F, path: &str) -> io::Result<Vec<u8>> {
    let mut file = File::open(files, path)?;
    let mut bytes = Vec::new(alloc);
    file.read_to_end(&mut bytes)?;
    Ok(bytes)
}

// Why a file can't be read.
fn unread(alloc: Global, error: &io::Error, path: String) -> Failure
    ensures words { outcome_of result ≢ BadWords }
{
    if error.kind() == ErrorKind::OutOfMemory {
        return Failure::NoMemory;
    }
    match system_words(alloc, error) {
        Ok(why) => Failure::NoFile(path, why),
        Err(_) => Failure::NoMemory,
    }
}

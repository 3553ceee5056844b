//! One run of the program, over any words, files and streams.
ghost use Rattle.std.specs.Prelude.{◌≡◌, ◌≢◌, ◌⊎◌, false, true, IfErr, IfOk, IfSome, OnOk};
ghost use Rattle.std.specs.Io.KnownBytes.{IsAtEnd, Keeps};
ghost use Rattle.std.specs.List.{IsDistinct};
ghost use Rattle.blot_types.specs.Keys.{same_text};
ghost use Rattle.blot_desk.specs.Desk.{DeskState};
ghost use Rattle.blot_stream.specs.Texts.{AppendsOf};
ghost use Rattle.blot_operator.specs.OpenDay.{EndsOf};
ghost use Rattle.blot_operator.specs.Operating.{answers_of};
ghost use Rattle.blot_capture.specs.Replay.{captured_by};
ghost use Rattle.blotter.specs.Rounds.{ServesRound};
ghost use Rattle.blotter.specs.Serving.{DayServed, OpenDayServed};
ghost use Rattle.blot_stream.specs.declared.outcome.Outcome.TheVariants.{BadWords, Done, NoMemory};
ghost use Rattle.blot_arguments.specs.Words.{AreApartIn, HasPeers, is_written_last};
ghost use Rattle.blotter_main.specs.Failure.{outcome_of};
ghost use Rattle.blotter_main.specs.Running.{Did};

use crate::asking::ask_server;
use crate::failure::{Failure, system_words};
use crate::journals::Journals;
use crate::keeping::{audit_journal, keep_day, open_journal};
use crate::sockets::Sockets;
use crate::staffing::{keep_staffed, staff_port};
use blot_arguments::{DeskSource, Refusal, Words, given, parse};
use blot_desk::Held;
use blot_slots::Slots;
use blot_time::Day;
use blot_trail::audit;
use blot_types::Text64;
use blotter::{
    Door, Outcome, ReplayFault, Rounds, capture, desk_lines, replay, serve_day, serve_open_day,
};
use log::Log;
use std::alloc::Global;
use std::env::Env;
use std::fs::{File, Files};
use std::io::{ErrorKind, Read, Write};
use std::marker::Brand;
use std::net::{Ipv4Addr, Net, OpenListener, SocketAddrV4, TcpListener, TcpStream};
use std::os::fd::OwnedFd;
use std::sync::Wait;
use std::sync::ledger::Blank;
use std::thread::Threads;
use std::time::Clock;

/// Does what the command line asks for, and says how it ended. What the user has to know goes to `errors`. With `prompts` a client
/// says when a line is wanted.
pub fn run<S: Env + AllocGlobal, F: Files, J: Journals + Sockets, T, R: Read, W: Write, E: Write>(
    system: &S,
    files: &F,
    journals: &J,
    rt: &T,
    prompts: bool,
    input: &mut R,
    output: &mut W,
    errors: &mut E,
) -> Outcome
where
    T: Threads + Wait + Net + Clock + Log + Sync,
    T::Listener: Sync,
    T::Stream: Send,
    OwnedFd: From<T::Listener>,
    ensures did { result ≡ Done → (words : Words) × HasPeers words
        × Did prompts (ServesRound T T.Stream.remaining T.Stream.contents) words (R.remaining input.old) (R.remaining input.new) (W.contents output.old) (W.contents output.new) }
    ensures unread { result ≡ BadWords → input.new ≡ input.old }
    ensures unwritten { result ≡ BadWords → output.new ≡ output.old }
{
    match words_of(system) {
        Ok(words) => {
            match perform(system, files, journals, rt, words, prompts, input, output) {
                Ok(()) => Outcome::Done,
                Err(failure) => tell(errors, failure),
            }
        }
        Err(refusal) => tell(errors, Failure::Words(refusal)),
    }
}

// What the command line asks for.
fn words_of<S: Env + AllocGlobal>(system: &S) -> Result<Words, Refusal>
    ensures peers { IfOk result HasPeers }
    ensures apart { IfOk result AreApartIn }
{
    let words = given(system)?;
    parse(system.alloc(), words.as_slice())
}

// Does what the words ask for. Out of memory, a replay and an audit have written nothing.
fn perform<S: Env + AllocGlobal, F: Files, J: Journals + Sockets, T, R: Read, W: Write>(
    system: &S,
    files: &F,
    journals: &J,
    rt: &T,
    words: Words,
    prompts: bool,
    input: &mut R,
    output: &mut W,
) -> Result<(), Failure>
where
    T: Threads + Wait + Net + Clock + Log + Sync,
    T::Listener: Sync,
    T::Stream: Send,
    OwnedFd: From<T::Listener>,
    requires peers { HasPeers words }
    requires apart { AreApartIn words }
    ensures did { OnOk result
        (Did prompts (ServesRound T T.Stream.remaining T.Stream.contents) words (R.remaining input.old) (R.remaining input.new) (W.contents output.old) (W.contents output.new)) }
    ensures no_memory { IfErr result (λ failure. outcome_of failure ≡ NoMemory
        → (is_written_last words ≡ false) ⊎ Keeps (W.contents output.old) (W.contents output.new)) }
    ensures words { IfErr result (λ failure. outcome_of failure ≢ BadWords) }
{
    let alloc = system.alloc();
    match words {
        Words::Replay { own, day, peers } => {
            replay(alloc, input, output, own, peers.as_slice(), day).map_err(Failure::Stopped)
        }
        Words::Desk { own, from, peers } => match from {
            DeskSource::Capture(file) => {
                open_desk(alloc, files, file, own, peers.as_slice(), input, output)
            }
            DeskSource::Journal(file) => {
                open_journal(alloc, files, file, own, peers.as_slice(), input, output)
            }
        },
        Words::Audit {
            own,
            journal,
            peers,
        } => match journal {
            Some(file) => audit_journal(alloc, files, file, own, peers.as_slice(), output),
            None => audit(alloc, input, output, own, peers.as_slice()).map_err(Failure::Stopped),
        },
        Words::Open {
            own,
            day,
            port,
            lanes,
            journal,
            operators,
            peers,
        } => match (operators, journal) {
            (None, None) => open_port(
                rt,
                alloc,
                own,
                peers.as_slice(),
                day,
                port,
                lanes,
                input,
                output,
            ),
            (None, Some(file)) => keep_day(
                journals,
                rt,
                alloc,
                file,
                own,
                peers.as_slice(),
                day,
                port,
                lanes,
                input,
                output,
            ),
            (Some(path), None) => staff_port(
                journals,
                rt,
                alloc,
                path,
                own,
                peers.as_slice(),
                day,
                port,
                lanes,
                output,
            ),
            (Some(path), Some(file)) => keep_staffed(
                journals,
                rt,
                alloc,
                file,
                path,
                own,
                peers.as_slice(),
                day,
                port,
                lanes,
                output,
            ),
        },
        Words::Serve {
            own,
            day,
            port,
            sessions,
            rounds,
            peers,
        } => match Slots::new(alloc, own, peers.as_slice()) {
            Ok(slots) => {
                let rounds = Rounds { rounds, sessions };
                serve_port(rt, alloc, &slots, day, port, rounds, input, output)
            }
            Err(_) => Err(Failure::NoMemory),
        },
        Words::Ask { path, name } => ask_server(system, rt, path, name, prompts, input, output),
    }
}

// Serves an open day over a port of 127.0.0.1.
fn open_port<T, R: Read, W: Write>(
    rt: &T,
    alloc: Global,
    own: Text64,
    peers: &[Text64],
    day: Day,
    port: u16,
    lanes: u16,
    input: &mut R,
    output: &mut W,
) -> Result<(), Failure>
where
    T: Threads + Wait + Net + Clock + Log + Sync,
    T::Listener: Sync,
    T::Stream: Send,
    OwnedFd: From<T::Listener>,
    requires peers { IsDistinct same_text peers.now }
    ensures served { OnOk result (OpenDayServed (R.remaining input.old) day (W.contents output.old) (W.contents output.new)) }
    ensures read_to_the_end { OnOk result (EndsOf true (R.remaining input.old) (R.remaining input.new)) }
    ensures words { IfErr result (λ failure. outcome_of failure ≢ BadWords) }
{
    let (listener, handle) = bind(rt, port)?;
    let door = Door::new(handle);
    let blank = Blank::new(peers.len() as u64 + 1);
    serve_open_day::<Brand, _, _, _, _, _>(
        rt, alloc, blank, &listener, &door, lanes, own, peers, day, input, output,
    )
    .map_err(Failure::Served)
}

// Serves a day of rounds over a port of 127.0.0.1.
fn serve_port<T, R: Read, W: Write>(
    rt: &T,
    alloc: Global,
    slots: &Slots,
    day: Day,
    port: u16,
    rounds: Rounds,
    input: &mut R,
    output: &mut W,
) -> Result<(), Failure>
where
    T: Threads + Wait + Net + Clock + Log + Sync,
    T::Listener: Sync,
    T::Stream: Send,
    OwnedFd: From<T::Listener>,
    ensures served { OnOk result (DayServed (ServesRound T T.Stream.remaining T.Stream.contents slots.now) rounds.rounds
        (R.remaining input.old) rounds.sessions day (W.contents output.old) (W.contents output.new)) }
    ensures read_to_the_end { OnOk result (IsAtEnd (R.remaining input.new)) }
    ensures words { IfErr result (λ failure. outcome_of failure ≢ BadWords) }
{
    let (listener, handle) = bind(rt, port)?;
    let door = Door::new(handle);
    let blank = Blank::new(u64::from(rounds.sessions) + 1);
    serve_day::<Brand, _, _, _, _, _>(
        rt, alloc, blank, &listener, &door, rounds, slots, day, input, output,
    )
    .map_err(Failure::Served)
}

/// A listener on a port of 127.0.0.1, and another handle of it, taken as a stream, by which it is closed.
pub(crate) fn bind<T>(rt: &T, port: u16) -> Result<(T::Listener, TcpStream), Failure>
where
    T: Net,
    OwnedFd: From<T::Listener>,
    ensures words { IfErr result (λ failure. outcome_of failure ≢ BadWords) }
{
    let address = SocketAddrV4::new(Ipv4Addr::LOCALHOST, port);
    let listener = match TcpListener::bind(rt, address) {
        Ok(listener) => listener,
        Err(error) => return Err(port_failure(port, error.kind())),
    };
    match listener.try_clone() {
        Ok(handle) => Ok((listener, TcpStream::from(OwnedFd::from(handle)))),
        Err(error) => Err(port_failure(port, error.kind())),
    }
}

// Why a port can't be used.
fn port_failure(port: u16, kind: ErrorKind) -> Failure
    ensures words { outcome_of result ≢ BadWords }
{
    match kind {
        ErrorKind::OutOfMemory => Failure::NoMemory,
        ErrorKind::AddrInUse => Failure::PortTaken(port),
        _ => Failure::NoPort(port),
    }
}

// Takes the capture in a file, and then answers the lines of the input.
fn open_desk<F: Files, R: Read, W: Write>(
    alloc: Global,
    files: &F,
    path: String,
    own: Text64,
    peers: &[Text64],
    input: &mut R,
    output: &mut W,
) -> Result<(), Failure>
    requires { IsDistinct same_text peers.now }
    ensures told { OnOk result ((desk : DeskState) × AppendsOf (answers_of desk) (R.remaining input.old)
        (W.contents output.old) (W.contents output.new)) }
    ensures read_to_the_end { OnOk result (IsAtEnd (R.remaining input.new)) }
    ensures words { IfErr result (λ failure. outcome_of failure ≢ BadWords) }
{
    match File::open(files, path.as_str()) {
        Ok(mut file) => keep_desk(alloc, &mut file, path, own, peers, input, output),
        Err(error) if error.kind() == ErrorKind::OutOfMemory => Err(Failure::NoMemory),
        Err(error) => Err(Failure::NoFile(path, system_words(alloc, &error)?)),
    }
}

// Takes a capture, and then answers the lines of the input.
fn keep_desk<C: Read, R: Read, W: Write>(
    alloc: Global,
    captured: &mut C,
    path: String,
    own: Text64,
    peers: &[Text64],
    input: &mut R,
    output: &mut W,
) -> Result<(), Failure>
    requires { IsDistinct same_text peers.now }
    ensures told { OnOk result ((desk : DeskState) × AppendsOf (answers_of desk) (R.remaining input.old)
        (W.contents output.old) (W.contents output.new)) }

    // The desk is the one that the capture leads to.
    ensures captured { OnOk result (IfSome (C.remaining captured.old) (λ frames.
        AppendsOf (answers_of (captured_by own peers.now frames)) (R.remaining input.old)
        (W.contents output.old) (W.contents output.new))) }
    ensures read_to_the_end { OnOk result (IsAtEnd (R.remaining input.new)) }
    ensures words { IfErr result (λ failure. outcome_of failure ≢ BadWords) }
{
    let mut held = captured_desk(alloc, captured, path, own, peers)?;
    let answered = answer(alloc, &mut held, input, output);
    drop(held);
    answered
}

// The desk that a capture leads to.
fn captured_desk<C: Read>(
    alloc: Global,
    captured: &mut C,
    path: String,
    own: Text64,
    peers: &[Text64],
) -> Result<Held, Failure>
    requires { IsDistinct same_text peers.now }
    ensures captured { IfOk result (λ held. IfSome (C.remaining captured.old) (λ frames. held ≡ captured_by own peers.now frames)) }
    ensures words { IfErr result (λ failure. outcome_of failure ≢ BadWords) }
{
    let mut held = Held::new(alloc);
    match capture(alloc, captured, own, peers, &mut held) {
        Ok(()) => Ok(held),
        Err(fault) => {
            drop(held);
            Err(untaken(fault, path))
        }
    }
}

// Why the capture in a file isn't taken.
fn untaken(fault: ReplayFault, path: String) -> Failure
    ensures words { outcome_of result ≢ BadWords }
{
    match fault {
        ReplayFault::Read => Failure::Unreadable(path),
        _ => Failure::Stopped(fault),
    }
}

/// Answers the lines of the input.
pub(crate) fn answer<R: Read, W: Write>(
    alloc: Global,
    held: &mut Held,
    input: &mut R,
    output: &mut W,
) -> Result<(), Failure>
    ensures told { OnOk result (AppendsOf (answers_of held.old) (R.remaining input.old) (W.contents output.old) (W.contents output.new)) }
    ensures read_to_the_end { OnOk result (IsAtEnd (R.remaining input.new)) }
    ensures words { IfErr result (λ failure. outcome_of failure ≢ BadWords) }
{
    desk_lines(alloc, input, output, held).map_err(Failure::Stopped)
}

// Tells why a run failed, and says how it ends. A fault in telling is ignored.
fn tell<E: Write>(errors: &mut E, failure: Failure) -> Outcome
    ensures { result ≡ outcome_of failure }
{
    if failure.has_sentence() {
        let _ = writeln!(errors, "blotter: {failure}");
    }
    if let Some(text) = failure.text() {
        let _ = writeln!(errors, "{text}");
    }
    let outcome = failure.outcome();
    drop(failure);
    outcome
}

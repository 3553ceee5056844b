//! Rounds of connections, each served at once.
ghost use Rattle.std.specs.Prelude.{◌≡◌, ◌≤◌, [], IfOk, OnErr, OnOk, map, vec_len, vec_capacity};
ghost use Rattle.blotter.specs.Rounds.{FewerLead, RoundsLead, ServesRound, accept_fault, setting_fault};

use blot_desk::{Desk, Seat};
use blot_gateway::{Ended, OpenGate, serve};
use blot_slots::Slots;
use blot_sockets::{Socket, SystemClock};
use blot_stream::ServeFault;
use log::{Log, info};
use std::alloc::{AllocError as NoMemory, Global};
use std::io::{ErrorKind, Read, Write};
use std::mem;
use std::net::{OpenListener, OpenStream};
use std::sync::Wait;
use std::sync::ledger::Ledger;
use std::thread::Threads;
use std::time::Clock;

/// How many rounds a day has, and how many connections a round.
#[derive(Clone, Copy, Debug, PartialEq, Eq)]
pub struct Rounds {
    /// Rounds of a day; none where it is 0.
    pub rounds: u16,
    /// Connections of a round; a round of 0 is over at once.
    pub sessions: u16,
}

/// Logs how each wire of a round ended, in their order: `wire 0 ended 1`, by the number of its ending.
pub fn log_endings<G: Log, L: Ledger>(log: &G, endings: &[(Ended, Seat<L>)]) {
    for (place, (ended, _)) in endings.iter().enumerate() {
        info!(log; "wire {place} ended {}", ended.number());
    }
}

/// Takes rounds of connections: each has one for each seat, which are served at once, and then their endings are logged. A fault
/// ends them before the last round; the seats are then those after the rounds that were served.
pub(crate) fn serve_rounds<R, N, L>(
    rt: &R,
    alloc: Global,
    listener: &N,
    rounds: u16,
    slots: &Slots,
    desk: &Desk<L>,
    seats: &mut Vec<Seat<L>>,
) -> Result<(), ServeFault>
where
    R: Threads + Wait + Clock + Log + Sync,
    N: OpenListener,
    N::Stream: Read + Write + OpenStream + Send,
    L: Ledger + Send + Sync,
    ensures served { OnOk result (RoundsLead (ServesRound R N.Stream.remaining N.Stream.contents slots.now) rounds
        seats.old.items seats.new.items) }
    ensures fewer { OnErr result (FewerLead (ServesRound R N.Stream.remaining N.Stream.contents slots.now) rounds
        seats.old.items seats.new.items) }
{
    for _ in 0..rounds {
        serve_round(rt, alloc, listener, slots, desk, seats)?;
    }
    Ok(())
}

// Takes a connection for each seat, and serves them at once. Where too few come, none is served.
fn serve_round<R, N, L>(
    rt: &R,
    alloc: Global,
    listener: &N,
    slots: &Slots,
    desk: &Desk<L>,
    seats: &mut Vec<Seat<L>>,
) -> Result<(), ServeFault>
where
    R: Threads + Wait + Clock + Log + Sync,
    N: OpenListener,
    N::Stream: Read + Write + OpenStream + Send,
    L: Ledger + Send + Sync,
    ensures served { OnOk result (ServesRound R N.Stream.remaining N.Stream.contents slots.now seats.old.items seats.new.items) }
    ensures kept { OnErr result (seats.new.items ≡ seats.old.items) }
{
    // Room for the seats after the round, and for one more, the operator's, at the end of the day.
    let mut served = Vec::with_capacity(alloc, seats.len().saturating_add(1))?;
    let wires = accept_all(rt, alloc, listener, seats.len())?;
    let clocks = clocks_of(rt, alloc, seats.len())?;
    let waiting = mem::replace(seats, Vec::new(alloc));
    match serve(rt, alloc, wires, clocks, slots, desk, waiting, &OpenGate) {
        Ok(endings) => {
            log_endings(rt, &endings);
            put_seats(&mut served, endings);
            *seats = served;
            Ok(())
        }
        Err((_, waiting)) => {
            *seats = waiting;
            Err(ServeFault::NoMemory)
        }
    }
}

// So many connections, as they come.
fn accept_all<'a, R, N>(
    clock: &'a R,
    alloc: Global,
    listener: &N,
    count: usize,
) -> Result<Vec<Socket<'a, R, N::Stream>>, ServeFault>
where
    R: Clock,
    N: OpenListener,
    N::Stream: Read + OpenStream,
    ensures { IfOk result (λ wires. vec_len wires ≡ count) }
{
    let mut wires = Vec::new(alloc);
    for _ in 0..count {
        let wire = accept(clock, listener)?;
        wires.push(wire)?;
    }
    Ok(wires)
}

// The next connection. A connection that is gone already is passed over.
fn accept<'a, R, N>(clock: &'a R, listener: &N) -> Result<Socket<'a, R, N::Stream>, ServeFault>
where
    R: Clock,
    N: OpenListener,
    N::Stream: Read + OpenStream,
{
    for _ in 0..u64::MAX {
        let fault = match listener.accept() {
            Ok((stream, _)) => match Socket::new(clock, stream) {
                Ok(socket) => return Ok(socket),
                Err(error) => setting_fault(error.kind()),
            },
            Err(error) => accept_fault(error.kind()),
        };
        if let Some(fault) = fault {
            return Err(fault);
        }
    }
    Err(ServeFault::Connection)
}

// The fault that ends the rounds where a connection can't be accepted. There is none where it is gone already, or the call was
// interrupted: then the next one is taken.
fn accept_fault(error: ErrorKind) -> Option<ServeFault>
    ensures { result ≡ accept_fault error }
{
    match error {
        ErrorKind::Interrupted | ErrorKind::ConnectionAborted => None,
        ErrorKind::OutOfMemory => Some(ServeFault::NoMemory),
        _ => Some(ServeFault::Connection),
    }
}

// The same where a connection that was accepted can't be set up. There is none but where memory ran out.
fn setting_fault(error: ErrorKind) -> Option<ServeFault>
    ensures { result ≡ setting_fault error }
{
    match error {
        ErrorKind::OutOfMemory => Some(ServeFault::NoMemory),
        _ => None,
    }
}

// So many clocks of a system.
fn clocks_of<'a, R: Clock>(
    system: &'a R,
    alloc: Global,
    count: usize,
) -> Result<Vec<SystemClock<'a, R>>, NoMemory>
    ensures { IfOk result (λ clocks. vec_len clocks ≡ count) }
{
    let mut clocks = Vec::with_capacity(alloc, count)?;
    for _ in 0..count {
        clocks.push_reserved(SystemClock::new(system));
    }
    Ok(clocks)
}

// Puts the seats after a round, in their order.
fn put_seats<L: Ledger>(seats: &mut Vec<Seat<L>>, endings: Vec<(Ended, Seat<L>)>)
    requires empty { seats.old.items ≡ [] }
    requires room { vec_len endings ≤ vec_capacity seats.old }
    ensures { seats.new.items ≡ map (λ ending. ending.1) endings.items }
{
    for (_, seat) in endings {
        seats.push_reserved(seat);
    }
}

//! Wires that are served at once.
ghost use Rattle.std.specs.Prelude.{◌≡◌, ◌<◌, ◌≤◌, [], map, length, vec_len, vec_capacity, IfErr, IfOk, IfSome, Some, slice_index_or, ℕ};
ghost use Rattle.blot_gateway.specs.AtOnce.{EachAdds, EachServed, IsServed};

use crate::connection::Connection;
use crate::{Clock, Ended, Gate, SeatSink, Wire};
use blot_desk::{Desk, Seat};
use blot_slots::Slots;
use std::alloc::{AllocError as NoMemory, Global};
use std::sync::Wait;
use std::sync::ledger::Ledger;
use std::thread::{Threads, for_each_mut};

/// Serves wires at once, each in a thread of its own where the system gives one, else after another one: how each ended, with its seat, in
/// their order. A wire is greeted, the session of the peer that it names is checked out, served at its clock with its seat as the sink,
/// and checked in again; then the wire is dropped. No lock is held while a wire is read or written. The gate is called round each submit.
///
/// Each ends as `greet` or `serve_session` says; or, where `check_out` refuses its peer's session, Closed: with CompId at UnknownPeer, with
/// AlreadyOn at AlreadyOn. Which of these, and whether it had to be, no clause says: the table is under a lock. An error is out of memory
/// for the lists, before the first wire: nothing was read or written, and the seats are as they were.
pub fn serve<
    R: Threads + Wait + Sync,
    W: Wire + Drop + Send,
    C: Clock + Drop + Send,
    L: Ledger + Send + Sync,
    G: Gate + Sync,
>(
    rt: &R,
    alloc: Global,
    wires: Vec<W>,
    clocks: Vec<C>,
    slots: &Slots,
    desk: &Desk<L>,
    seats: Vec<Seat<L>>,
    gate: &G,
) -> Result<Vec<(Ended, Seat<L>)>, (NoMemory, Vec<Seat<L>>)>
    requires clocks { vec_len clocks ≡ vec_len wires }
    requires seats { vec_len seats ≡ vec_len wires }
    ensures served { IfOk result (λ endings. EachServed W.does C.ticks W.failures slots.now wires.items clocks.items seats.items endings.items) }
    ensures submits { IfOk result (λ endings. EachAdds seats.items (map (λ ending. ending.1) endings.items)) }
    ensures err { IfErr result (λ refused. refused.1.items ≡ seats.items) }
{
    let Ok(mut endings) = Vec::with_capacity(alloc, seats.len()) else {
        return Err((NoMemory, seats));
    };
    let Ok(mut connections) = Vec::with_capacity(alloc, seats.len()) else {
        return Err((NoMemory, seats));
    };
    put_connections(&mut connections, rt, wires, clocks, desk, seats, gate);
    serve_each(rt, alloc, slots, &mut connections);
    put_endings(&mut endings, connections);
    Ok(endings)
}

// Puts each wire with its clock and its seat, in their order.
fn put_connections<'a, W: Drop, C: Drop, R: Wait, L: Ledger, G: Gate>(
    connections: &mut Vec<Connection<'a, W, C, R, L, G>>,
    rt: &'a R,
    wires: Vec<W>,
    clocks: Vec<C>,
    desk: &'a Desk<L>,
    seats: Vec<Seat<L>>,
    gate: &'a G,
)
    requires clocks { vec_len clocks ≡ vec_len wires }
    requires seats { vec_len seats ≡ vec_len wires }
    requires empty { connections.old.items ≡ [] }
    requires room { vec_len wires ≤ vec_capacity connections.old }
    ensures wires { map (λ connection. connection.wire) connections.new.items ≡ map Some wires.items }
    ensures clocks { map (λ connection. connection.clock) connections.new.items ≡ clocks.items }
    ensures seats { map (λ connection. connection.sink) connections.new.items ≡ seats.items }
{
    let mut clocks = clocks.into_iter();
    let mut seats = seats.into_iter();
    for wire in wires {
        let clock = clocks.next().unwrap();
        let sink = SeatSink::new(rt, desk, seats.next().unwrap(), gate, connections.len());
        connections.push_reserved(Connection {
            wire: Some(wire),
            clock,
            sink,
            ended: Ended::End,
        });
    }
}

// Serves each connection in a thread of its own, or after another one.
fn serve_each<
    R: Threads + Wait + Sync,
    W: Wire + Drop + Send,
    C: Clock + Send,
    L: Ledger + Send + Sync,
    G: Gate + Sync,
>(rt: &R, alloc: Global, slots: &Slots, connections: &mut [Connection<'_, W, C, R, L, G>])
    ensures { (i : ℕ) (d : _) → i < length connections.old
        → let before = slice_index_or connections.old i d in let after = slice_index_or connections.new i d in
        IfSome before.wire (λ wire. IsServed W.does C.ticks W.failures slots.now wire before.clock before.sink after.ended after.sink) }
{
    let threads = connections.len().max(1);
    for_each_mut(
        rt,
        connections,
        threads,
        &|_, connection: &mut Connection<'_, W, C, R, L, G>| connection.serve(rt, alloc, slots),
    );
}

// Puts how each connection ended, with its seat, in their order.
fn put_endings<W: Drop, C: Drop, R: Wait, L: Ledger, G: Gate>(
    endings: &mut Vec<(Ended, Seat<L>)>,
    connections: Vec<Connection<'_, W, C, R, L, G>>,
)
    requires empty { endings.old.items ≡ [] }
    requires room { vec_len connections ≤ vec_capacity endings.old }
    ensures { endings.new.items ≡ map (λ connection. (connection.ended, connection.sink)) connections.entry.items }
{
    for connection in connections {
        let Connection {
            wire: _,
            clock: _,
            sink,
            ended,
        } = connection;
        endings.push_reserved((ended, sink.into_seat()));
    }
}

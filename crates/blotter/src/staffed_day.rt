//! `serve_staffed_day` and `serve_kept_staffed_day`: an open day whose operators come over a socket, many at once.
ghost use Rattle.std.specs.Prelude.{◌≡◌, ◌+◌, ◌++◌, ℕ, List, [], false, length, IfErr, IfOk, IsTrue, OnOk, All};
ghost use Rattle.std.specs.List.{IsDistinct, list_any};
ghost use Rattle.blot_types.specs.Keys.{same_text};
ghost use Rattle.blot_desk.specs.declared.event.Event.{Event};
ghost use Rattle.blot_desk.specs.Keeping.{IsBeginning, kept_events};
ghost use Rattle.blot_diary.specs.Diary.{Leaves, desk_events};
ghost use Rattle.blot_recovery.specs.Parties.{IsKeptPeer};
ghost use Rattle.blot_terminals.specs.declared.operators.TheConstants.{OPERATORS_MAX};
ghost use Rattle.blotter.specs.Keeping.{IsUnkept, ServesStaffed};
ghost use Rattle.blotter.specs.Serving.{StaffedDayServed};

use crate::KeptFault;
use crate::kept_day::kept_peers;
use crate::meanwhile::PeersDay;
use crate::open_day::first_peers;
use crate::settling::{ended, report_kept};
use blot_desk::{Desk, Seat};
use blot_diary::Diary;
use blot_gateway::{Clock as _, FrameKeeper};
use blot_journal::Device;
use blot_lanes::{Crew, ListedPeer, Peers, Task, serve_crewed};
use blot_operator::{OpenDay, OperatorSeat};
use blot_recovery::{KeptOperator, KeptOperators, OPERATOR_SEATS, Recovered, open_day};
use blot_sockets::{Door, SystemClock};
use blot_stream::ServeFault;
use blot_terminals::{OPERATORS_MAX, Operators, Room, TERMINALS, Terminals};
use blot_time::Day;
use blot_types::Text64;
use log::Log;
use std::alloc::{AllocError as NoMemory, Global};
use std::io::{Read, Write};
use std::net::{OpenListener, OpenStream};
use std::sync::Wait;
use std::sync::ledger::{Blank, Ledger};
use std::thread::Threads;
use std::time::Clock;

/// What a desk leaves that was served in lanes and to operators over a socket: the seats of the brokers, and behind them those of the operators.
#[derive(Drop)]
struct Staffed<L: Ledger, K: FrameKeeper> {
    desk: Desk<L, K>,
    seats: Vec<Seat<L>>,
}

// What each thread does that serves operators.
#[derive(Drop)]
struct Staff<'a, R, T, L: Ledger, K: FrameKeeper, D, H> {
    room: &'a Room<'a, R, T, L, K, D, H>,
}

impl<'a, R, T, L, K, D, H> Crew for Staff<'a, R, T, L, K, D, H>
where
    R: Wait + Clock + Log,
    T: Terminals,
    L: Ledger,
    K: FrameKeeper,
    D: OpenDay,
    H: OpenStream,
{
    fn run(&self) {
        self.room.run();
    }
}

impl<'a, R, T, L, K, D, H> Task for Staff<'a, R, T, L, K, D, H>
where
    R: Wait + Clock + Log,
    T: Terminals,
    L: Ledger,
    K: FrameKeeper,
    D: OpenDay,
    H: OpenStream,
{
    type Output = ();

    ghost gives = { λ _ _. Unit {0} };

    fn run(self) {
        let Staff { room } = self;
        room.run();
    }
}

/// Serves an open day as `serve_open_day` does, but that its operators come over a socket, up to sixteen names in a day, and many at once. The line
/// `close` of any of them ends the day; the end of an operator's connection ends nothing else.
///
/// NoMemory: memory ran out; before any connection is taken where there is no thread for a lane.
/// Lines: the report can't be written. Unsettled: the receipts aren't those of the history.
pub fn serve_staffed_day<L, R, N, H, T, O>(
    rt: &R,
    alloc: Global,
    blank: Blank,
    listener: &N,
    door: &Door<H>,
    lanes: u16,
    own: Text64,
    peers: &[Text64],
    day: Day,
    terminals: &T,
    output: &mut O,
) -> Result<(), ServeFault>
where
    L: Ledger + Send + Sync,
    R: Threads + Wait + Clock + Log + Sync,
    N: OpenListener + Sync,
    N::Stream: Read + Write + OpenStream + Send,
    H: OpenStream + Sync,
    T: Terminals + Sync,
    T::Input: Send,
    T::Output: Send,
    O: Write,
    requires name { blank.name ≡ L.name }
    requires parts { blank.parts ≡ L.parts }
    requires seats { blank.parts ≡ length peers.now + OPERATORS_MAX }
    requires peers { IsDistinct same_text peers.now }
    ensures served { OnOk result (StaffedDayServed day (O.contents output.old) (O.contents output.new)) }
{
    let Ok(brokers) = u32::try_from(peers.len()) else {
        return Err(ServeFault::NoMemory);
    };
    if brokers > u32::MAX - OPERATORS_MAX as u32 {
        return Err(ServeFault::NoMemory);
    }
    let (desk, seats) = Desk::<L>::new(alloc, blank, brokers + OPERATORS_MAX as u32)?;
    let mut seats = seats;
    let spare = seats.split_off(peers.len())?;
    let listed = first_peers(alloc, peers, seats)?;
    let operators = Operators::new(alloc, own, Vec::new(alloc), spare)?;
    let staffed = serve_staffed(
        rt, alloc, desk, listener, door, lanes, own, listed, operators, terminals,
    )?;
    let Staffed { desk, seats } = staffed;
    let (reported, _) = report_kept(rt, alloc, desk, seats, day, output);
    ended(Ok(()), reported)
}

/// Serves such a day, and keeps it in the journal of this file, as `serve_kept_day` does. What is told to an operator is durable before.
///
/// The file is handed back with a fault, unless there was no memory to begin; it tells why it can't be written.
pub fn serve_kept_staffed_day<L, R, N, H, T, O, D>(
    rt: &R,
    alloc: Global,
    blank: Blank,
    device: D,
    listener: &N,
    door: &Door<H>,
    lanes: u16,
    own: Text64,
    peers: &[Text64],
    day: Day,
    terminals: &T,
    output: &mut O,
) -> Result<Diary<D>, (KeptFault, Option<D>)>
where
    L: Ledger + Send + Sync,
    R: Threads + Wait + Clock + Log + Sync,
    N: OpenListener + Sync,
    N::Stream: Read + Write + OpenStream + Send,
    H: OpenStream + Sync,
    T: Terminals + Sync,
    T::Input: Send,
    T::Output: Send,
    O: Write,
    D: Device + Drop + Send + Sync,
    requires name { blank.name ≡ L.name }
    requires parts { blank.parts ≡ L.parts }
    requires seats { blank.parts ≡ length peers.now + OPERATOR_SEATS }
    requires distinct { IsDistinct same_text peers.now }
    requires others { list_any (same_text own) peers.now ≡ false }
    requires readable { IsTrue (D.is_readable device) }

    // The report is that of the events that are kept at last, all of which are durable.
    ensures served { IfOk result (λ last. ServesStaffed (desk_events last.text) day (O.contents output.old) (O.contents output.new)) }
    ensures durable { IfOk result (λ last. length (desk_events last.durable) ≡ length (desk_events last.text)) }

    // A crash now leaves a beginning of them with all that are durable, and one at any moment since the journal was opened, inside its calls
    // too, would have left a beginning of them, whatever the brokers and the operators did.
    ensures now { IfOk result (λ last. (left : List Event) → Leaves (D.may_leave last.device) left
        → IsBeginning (length (desk_events last.durable)) (desk_events last.text) left) }
    ensures ever { IfOk result (λ last. (left : List Event) → Leaves (D.left_since last.device last.since) left
        → IsBeginning (length (desk_events last.found)) (desk_events last.text) left) }
    ensures fault { IfErr result (λ refused. IsUnkept own day peers.now (D.seen device) refused.0) }
{
    let now = SystemClock::new(rt).now();
    match open_day::<L, D>(alloc, blank, device, own, day, now, peers, None) {
        Ok((diary, recovered)) => serve_recovered_staffed(
            rt, alloc, recovered, diary, listener, door, lanes, own, day, terminals, output,
        ),
        Err((fault, device)) => Err((KeptFault::Opening(fault), Some(device))),
    }
}

// Serves such a day from what its journal had when it was opened, on.
fn serve_recovered_staffed<L, R, N, H, T, O, D>(
    rt: &R,
    alloc: Global,
    recovered: Recovered<L>,
    diary: Diary<D>,
    listener: &N,
    door: &Door<H>,
    lanes: u16,
    own: Text64,
    day: Day,
    terminals: &T,
    output: &mut O,
) -> Result<Diary<D>, (KeptFault, Option<D>)>
where
    L: Ledger + Send + Sync,
    R: Threads + Wait + Clock + Log + Sync,
    N: OpenListener + Sync,
    N::Stream: Read + Write + OpenStream + Send,
    H: OpenStream + Sync,
    T: Terminals + Sync,
    T::Input: Send,
    T::Output: Send,
    O: Write,
    D: Device + Drop + Send + Sync,
    requires kept { kept_events recovered.opening.history ≡ desk_events diary.text }
    requires peers { All (IsKeptPeer own diary.text) recovered.peers.items }
    requires spare { All (λ receipts. receipts ≡ []) recovered.operators.spare.items }
    ensures served { IfOk result (λ last. ServesStaffed (desk_events last.text) day (O.contents output.old) (O.contents output.new)) }
    ensures durable { IfOk result (λ last. length (desk_events last.durable) ≡ length (desk_events last.text)) }
    ensures now { IfOk result (λ last. (left : List Event) → Leaves (D.may_leave last.device) left
        → IsBeginning (length (desk_events last.durable)) (desk_events last.text) left) }
    ensures ever { IfOk result (λ last. (left : List Event) → Leaves (D.left_since last.device last.since) left
        → IsBeginning (length (desk_events last.found)) (desk_events last.text) left) }
    ensures fault { IfErr result (λ refused. (peers : List (List ℕ)) (file : List ℕ) → IsUnkept own day peers file refused.0) }
{
    let Recovered {
        opening,
        peers: kept,
        operators,
        ..
    } = recovered;
    let Ok(listed) = kept_peers(alloc, kept) else {
        return Err((KeptFault::Serving(ServeFault::NoMemory), None));
    };
    let Ok(operators) = kept_operators(alloc, own, operators) else {
        return Err((KeptFault::Serving(ServeFault::NoMemory), None));
    };
    let desk = opening.open(diary);
    let staffed = match serve_staffed(
        rt, alloc, desk, listener, door, lanes, own, listed, operators, terminals,
    ) {
        Ok(staffed) => staffed,
        Err(fault) => return Err((KeptFault::Serving(fault), None)),
    };
    let Staffed { desk, seats } = staffed;
    let (reported, diary) = report_kept(rt, alloc, desk, seats, day, output);
    match ended(Ok(()), reported) {
        Ok(()) => Ok(diary),
        Err(fault) => Err((KeptFault::Serving(fault), Some(diary.into_device()))),
    }
}

// Serves the connections of listed peers at a desk, and its operators meanwhile.
fn serve_staffed<L, R, N, H, T, K>(
    rt: &R,
    alloc: Global,
    desk: Desk<L, K>,
    listener: &N,
    door: &Door<H>,
    lanes: u16,
    own: Text64,
    listed: Vec<ListedPeer<L>>,
    operators: Operators<L>,
    terminals: &T,
) -> Result<Staffed<L, K>, ServeFault>
where
    L: Ledger + Send + Sync,
    R: Threads + Wait + Clock + Log + Sync,
    N: OpenListener + Sync,
    N::Stream: Read + Write + OpenStream + Send,
    H: OpenStream + Sync,
    T: Terminals + Sync,
    T::Input: Send,
    T::Output: Send,
    K: FrameKeeper + Send + Sync,
{
    // Enough for all seats, so that the end of the day asks for no memory to gather them.
    let space = Vec::with_capacity(alloc, listed.len().saturating_add(OPERATOR_SEATS as usize))?;
    let Ok(peers) = Peers::new(alloc, own, listed) else {
        return Err(ServeFault::NoMemory);
    };
    let day = PeersDay {
        rt,
        peers: &peers,
        door,
        has_operators: true,
    };
    serve_in(
        rt, alloc, listener, door, lanes, &desk, &peers, &operators, terminals, &day,
    )?;
    let brokers = peers.into_seats(space)?;
    let seats = operators.into_seats(brokers)?;
    Ok(Staffed { desk, seats })
}

// Serves the connections of listed peers, and the operators meanwhile. An error is that there was no thread for a lane.
fn serve_in<'a, L, R, N, H, T, K>(
    rt: &'a R,
    alloc: Global,
    listener: &N,
    door: &'a Door<H>,
    lanes: u16,
    desk: &'a Desk<L, K>,
    peers: &'a Peers<L>,
    operators: &'a Operators<L>,
    terminals: &'a T,
    day: &'a PeersDay<'a, R, L, H>,
) -> Result<(), NoMemory>
where
    L: Ledger + Send + Sync,
    R: Threads + Wait + Clock + Log + Sync,
    N: OpenListener + Sync,
    N::Stream: Read + Write + OpenStream + Send,
    H: OpenStream + Sync,
    T: Terminals + Sync,
    T::Input: Send,
    T::Output: Send,
    K: FrameKeeper + Send + Sync,
{
    let room = Room::new(rt, alloc, terminals, operators, desk, day, door);
    serve_staff(rt, alloc, listener, door, lanes, desk, peers, &room)
}

// Serves the operators of a room in so many threads, beside the lanes.
fn serve_staff<'a, L, R, N, H, T, K, D>(
    rt: &R,
    alloc: Global,
    listener: &N,
    door: &Door<H>,
    lanes: u16,
    desk: &Desk<L, K>,
    peers: &Peers<L>,
    room: &Room<'a, R, T, L, K, D, H>,
) -> Result<(), NoMemory>
where
    L: Ledger + Send + Sync,
    R: Threads + Wait + Clock + Log + Sync,
    N: OpenListener + Sync,
    N::Stream: Read + Write + OpenStream + Send,
    H: OpenStream + Sync,
    T: Terminals + Sync,
    T::Input: Send,
    T::Output: Send,
    K: FrameKeeper + Send + Sync,
    D: OpenDay + Sync,
{
    serve_crewed(
        rt,
        alloc,
        listener,
        peers,
        desk,
        door,
        lanes,
        &Staff { room },
        TERMINALS - 1,
        Staff { room },
    )
}

// The operators as the text of a journal leaves them.
fn kept_operators<L: Ledger>(
    alloc: Global,
    own: Text64,
    kept: KeptOperators<L>,
) -> Result<Operators<L>, NoMemory>
    requires { All (λ receipts. receipts ≡ []) kept.spare.items }
{
    let KeptOperators { named, spare } = kept;
    let mut came = Vec::with_capacity(alloc, named.len())?;
    for it in named {
        let KeptOperator {
            name,
            seat,
            records,
        } = it;
        came.push(OperatorSeat::new(seat, own, name, records))?;
    }
    Operators::new(alloc, own, came, spare)
}

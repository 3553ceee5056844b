//! `serve_day`: connections served round by round while an operator's lines are answered, and the report of the day.
ghost use Rattle.std.specs.Prelude.{◌≡◌, ◌+◌, ◌<◌, ◌^◌, ◌⊎◌, [], length, Err, IfOk, IsOk, OnErr, OnOk, All};
ghost use Rattle.std.specs.Io.KnownBytes.{IsAtEnd};
ghost use Rattle.blotter.specs.Rounds.{FewerLead, RoundsLead, ServesRound};
ghost use Rattle.blotter.specs.Serving.{DayCutShort, DayServed};

use crate::meanwhile::{Lines, take_back};
use crate::rounds::{Rounds, serve_rounds};
use crate::settling::{ended, report};
use blot_desk::{Desk, Seat};
use blot_lanes::Task;
use blot_slots::Slots;
use blot_sockets::Door;
use blot_stream::{ReplayFault, ServeFault};
use blot_time::Day;
use log::Log;
use std::alloc::{AllocError as NoMemory, Global};
use std::io::{Read, Write};
use std::net::{OpenListener, OpenStream};
use std::sync::Wait;
use std::sync::ledger::{Blank, Ledger};
use std::thread::{Threads, join};
use std::time::Clock;

/// Serves a day: rounds of connections, each of which is served at once, and meanwhile an operator's lines, through a seat of
/// their own. After the last round and the last line the seats are settled with the desk, and the report of the day is written.
/// How each connection of a round ended is logged after that round. After the last one the door is closed.
///
/// NoMemory: memory ran out. Lines: they stopped, as `seat_lines` says, or the report can't be written. Connection: none can be accepted, and
/// no further round begins; the lines are answered all the same. After each of these the report is still written if it can be. Unsettled: the
/// receipts aren't those of the history.
pub fn serve_day<L, R, N, H, I, O>(
    rt: &R,
    alloc: Global,
    blank: Blank,
    listener: &N,
    door: &Door<H>,
    rounds: Rounds,
    slots: &Slots,
    day: Day,
    input: &mut I,
    output: &mut O,
) -> Result<(), ServeFault>
where
    L: Ledger + Send + Sync,
    R: Threads + Wait + Clock + Log + Sync,
    N: OpenListener + Sync,
    N::Stream: Read + Write + OpenStream + Send,
    H: OpenStream + Sync,
    I: Read,
    O: Write,
    requires name { blank.name ≡ L.name }
    requires parts { blank.parts ≡ L.parts }
    requires seats { blank.parts ≡ rounds.sessions + 1 }
    ensures served { OnOk result (DayServed (ServesRound R N.Stream.remaining N.Stream.contents slots.now) rounds.rounds
        (I.remaining input.old) rounds.sessions day (O.contents output.old) (O.contents output.new)) }
    ensures read_to_the_end { OnOk result (IsAtEnd (I.remaining input.new)) }

    // Without a further connection the day of the rounds so far is told all the same.
    ensures no_connection { result ≡ Err ServeFault.Connection → IsAtEnd (I.remaining input.new)
        × DayCutShort (ServesRound R N.Stream.remaining N.Stream.contents slots.now) rounds.rounds
        (I.remaining input.old) rounds.sessions day (O.contents output.old) (O.contents output.new) }
{
    let (desk, seats, operator) = open_desk::<L>(alloc, blank, u32::from(rounds.sessions))?;
    let lines = Lines {
        rt,
        alloc,
        input,
        output,
        desk: &desk,
        seat: operator,
    };
    let ((served, seats), (answered, operator, input, output)) = serve_beside(
        rt,
        alloc,
        listener,
        door,
        rounds.rounds,
        slots,
        &desk,
        seats,
        lines,
    );
    take_back(input);
    let served = both(served, answered);
    let reported = report(rt, alloc, desk, seats, operator, day, output);
    ended(served, reported)
}

/// An empty desk, with so many seats for brokers and one for the operator.
pub(crate) fn open_desk<L: Ledger>(
    alloc: Global,
    blank: Blank,
    brokers: u32,
) -> Result<(Desk<L>, Vec<Seat<L>>, Seat<L>), NoMemory>
    requires name { blank.name ≡ L.name }
    requires parts { blank.parts ≡ L.parts }
    requires seats { blank.parts ≡ brokers + 1 }
    requires few { brokers + 1 < 2 ^ 32 }
    ensures count { IfOk result (λ opened. length opened.1.items ≡ brokers) }
    ensures empty { IfOk result (λ opened. All (λ receipts. receipts ≡ []) opened.1.items) }
    ensures operator { IfOk result (λ opened. opened.2 ≡ []) }
{
    let (desk, seats) = Desk::<L>::new(alloc, blank, brokers + 1)?;
    let mut seats = seats;
    let operator = seats.pop().unwrap();
    Ok((desk, seats, operator))
}

// Serves rounds of connections, and then closes the door; meanwhile it does a task: how the rounds ended, their seats, and what came of the
// task.
fn serve_beside<L, R, N, H, T, A>(
    rt: &R,
    alloc: Global,
    listener: &N,
    door: &Door<H>,
    rounds: u16,
    slots: &Slots,
    desk: &Desk<L>,
    seats: Vec<Seat<L>>,
    task: T,
) -> ((Result<(), ServeFault>, Vec<Seat<L>>), A)
where
    L: Ledger + Send + Sync,
    R: Threads + Wait + Clock + Log + Sync,
    N: OpenListener + Sync,
    N::Stream: Read + Write + OpenStream + Send,
    H: OpenStream + Sync,
    T: Task<Output = A> + Drop,
    ensures served { OnOk result.0.0 (RoundsLead (ServesRound R N.Stream.remaining N.Stream.contents slots.now) rounds
        seats.items result.0.1.items) }
    ensures fewer { OnErr result.0.0 (FewerLead (ServesRound R N.Stream.remaining N.Stream.contents slots.now) rounds
        seats.items result.0.1.items) }
    ensures gives { T.gives task result.1 }
{
    join(
        rt,
        move || -> (Result<(), ServeFault>, Vec<Seat<L>>)
            ensures served { OnOk result.0 (RoundsLead (ServesRound R N.Stream.remaining N.Stream.contents slots.entry.now) rounds
                seats.items result.1.items) }
            ensures fewer { OnErr result.0 (FewerLead (ServesRound R N.Stream.remaining N.Stream.contents slots.entry.now) rounds
                seats.items result.1.items) }
        {
            let mut seats = seats;
            let served = serve_rounds(rt, alloc, listener, rounds, slots, desk, &mut seats);
            door.close();
            (served, seats)
        },
        move || -> A
            ensures { T.gives task result }
        { task.run() },
    )
}

/// What a day and its lines come to: out of memory is told before any other fault, and the lines' fault before the day's.
pub(crate) fn both(
    served: Result<(), ServeFault>,
    answered: Result<(), ReplayFault>,
) -> Result<(), ServeFault>
    ensures ok { OnOk result (IsOk served × IsOk answered) }
    ensures connection { result ≡ Err ServeFault.Connection → (served ≡ Err ServeFault.Connection) × IsOk answered }
    ensures memory { (served ≡ Err ServeFault.NoMemory) ⊎ (answered ≡ Err ReplayFault.NoMemory) → result ≡ Err ServeFault.NoMemory }
{
    match (served, answered) {
        (Ok(()), Ok(())) => Ok(()),
        (Err(ServeFault::NoMemory), _) | (_, Err(ReplayFault::NoMemory)) => {
            Err(ServeFault::NoMemory)
        }
        (_, Err(fault)) => Err(ServeFault::Lines(fault)),
        (Err(fault), Ok(())) => Err(fault),
    }
}

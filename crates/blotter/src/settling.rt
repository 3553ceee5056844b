//! The end of a day: the seats are settled with the desk, and the report of the day is written.
ghost use Rattle.std.specs.Prelude.{◌≡◌, ◌≢◌, ◌⊎◌, List, [], ◌∷◌, ◌++◌, Err, IfOk, IfErr, OnOk, IsOk, length};
ghost use Rattle.std.specs.Io.KnownBytes.{Appends};
ghost use Rattle.blot_desk.specs.declared.event.Event.{Event};
ghost use Rattle.blot_desk.specs.Desk.{IsRun, list_after};
ghost use Rattle.blot_desk.specs.Keeping.{IsBeginning};
ghost use Rattle.blot_desk.specs.Receipts.{IsSettled};
ghost use Rattle.blot_report.specs.Text.{report_of};
ghost use Rattle.blotter.specs.Serving.{KeptReported, Reported, ReportedOf, settling_fault};

use blot_desk::{Closed, Desk, DeskFault, Held, Keeper, Seat, Settled};
use blot_report::{day_lines_parallel, report_text};
use blot_stream::{ReplayFault, ServeFault, write_text};
use blot_time::Day;
use std::alloc::{AllocError as NoMemory, Global};
use std::io::Write;
use std::sync::ledger::Ledger;
use std::thread::Threads;

/// Settles the seats of brokers and of an operator with a desk that keeps no events, and writes the report of the day.
pub(crate) fn report<L: Ledger, R: Threads + Sync, O: Write>(
    rt: &R,
    alloc: Global,
    desk: Desk<L>,
    brokers: Vec<Seat<L>>,
    operator: Seat<L>,
    day: Day,
    output: &mut O,
) -> Result<(), ServeFault>
    ensures reported { OnOk result (Reported day (brokers.items ++ (operator ∷ [])) (O.contents output.old) (O.contents output.new)) }
    ensures connected { result ≢ Err ServeFault.Connection }
{
    let seats = all_seats(brokers, operator)?;
    let (reported, _) = report_kept(rt, alloc, desk, seats, day, output);
    reported
}

/// Makes the events of a desk durable, settles the seats with it, and writes the report of the day. What keeps the events is handed back.
pub(crate) fn report_kept<L: Ledger, K: Keeper, R: Threads + Sync, O: Write>(
    rt: &R,
    alloc: Global,
    desk: Desk<L, K>,
    seats: Vec<Seat<L>>,
    day: Day,
    output: &mut O,
) -> (Result<(), ServeFault>, K)
    ensures reported { OnOk result.0 (KeptReported K.IsKept (K.events result.1) day seats.items (O.contents output.old) (O.contents output.new)) }
    ensures connected { result.0 ≢ Err ServeFault.Connection }

    // All of it is durable, whatever was written of the report.
    ensures durable { OnOk result.0 (K.durable result.1 ≡ length (K.events result.1)) }
    ensures untold { (O.contents output.new ≡ O.contents output.old) ⊎ (K.durable result.1 ≡ length (K.events result.1)) }

    // A crash now leaves a beginning of these events with all that are durable, and one at any moment since the keeper was opened would have
    // left a beginning of them, whatever the callers did.
    ensures now { (events_left : List Event) → K.leaves result.1 events_left → IsBeginning (K.durable result.1) (K.events result.1) events_left }
    ensures ever { (events_left : List Event) → K.left result.1 events_left → IsBeginning (K.found result.1) (K.events result.1) events_left }
{
    let (closed, mut keeper) = desk.close_kept();
    let synced = keeper.sync();
    keeper.ever();
    if synced.is_err() {
        return (Err(ServeFault::Lines(ReplayFault::Journal)), keeper);
    }
    let reported = report_closed(rt, alloc, closed, seats, day, output);
    (reported, keeper)
}

// Settles the seats with a desk that is closed, and writes the report of the day.
fn report_closed<L: Ledger, R: Threads + Sync, O: Write>(
    rt: &R,
    alloc: Global,
    closed: Closed<L>,
    seats: Vec<Seat<L>>,
    day: Day,
    output: &mut O,
) -> Result<(), ServeFault>
    ensures reported { OnOk result (ReportedOf closed.held.history day seats.items (O.contents output.old) (O.contents output.new)) }
    ensures connected { result ≢ Err ServeFault.Connection }
{
    match settled(closed, seats) {
        Ok(held) => write_report(rt, alloc, held, day, output),
        Err(fault) => Err(fault),
    }
}

// What the desk held, once the receipts of all seats agree with its history.
fn settled<L: Ledger>(closed: Closed<L>, seats: Vec<Seat<L>>) -> Result<Held, ServeFault>
    ensures settled { IfOk result (λ held. IsSettled held.history seats.items) }
    ensures same { IfOk result (λ held. held ≡ closed.held) }
    ensures run { IfOk result IsRun }
    ensures connected { result ≢ Err ServeFault.Connection }
{
    match closed.settle(seats) {
        Ok(settled) => Ok(held_of(settled)),
        Err(refused) => Err(unsettled(refused)),
    }
}

/// The seats of the brokers, and after them the operator's.
pub(crate) fn all_seats<L: Ledger>(
    brokers: Vec<Seat<L>>,
    operator: Seat<L>,
) -> Result<Vec<Seat<L>>, NoMemory>
    ensures { IfOk result (λ seats. seats.items ≡ brokers.items ++ (operator ∷ [])) }
{
    let mut seats = brokers;
    match seats.push(operator) {
        Ok(()) => Ok(seats),
        Err(_) => Err(NoMemory),
    }
}

// What a settled desk held.
fn held_of<L: Ledger>(settled: Settled<L>) -> Held
    ensures { result ≡ settled.held }
{
    settled.held
}

// Why a desk that is handed back isn't settled.
fn unsettled<L: Ledger>(refused: (DeskFault, Closed<L>, Vec<Seat<L>>)) -> ServeFault
    ensures told { result ≡ settling_fault refused.0 }
{
    let fault = refused.0;
    drop(refused);
    settling_fault(fault)
}

// What is told of a desk that isn't settled: that the receipts disagree, or else that memory ran out, since settling asks for no event.
fn settling_fault(fault: DeskFault) -> ServeFault
    ensures { result ≡ settling_fault fault }
{
    match fault {
        DeskFault::Unsettled => ServeFault::Unsettled,
        DeskFault::Full | DeskFault::NoMemory | DeskFault::Broken => ServeFault::NoMemory,
    }
}

// Writes the report of the day, which several threads make.
fn write_report<R: Threads + Sync, O: Write>(
    rt: &R,
    alloc: Global,
    held: Held,
    day: Day,
    output: &mut O,
) -> Result<(), ServeFault>
    ensures written { OnOk result (Appends (O.contents output.old) (O.contents output.new) (report_of (list_after held.history) day)) }
    ensures connected { result ≢ Err ServeFault.Connection }
{
    let text = day_report(rt, alloc, held, day)?;
    match write_text(output, &text) {
        Ok(()) => Ok(()),
        Err(fault) => Err(ServeFault::Lines(fault)),
    }
}

// The report of a day of a desk, made by several threads. The record goes first, so that the report takes its room.
fn day_report<R: Threads + Sync>(
    rt: &R,
    alloc: Global,
    held: Held,
    day: Day,
) -> Result<Vec<u8>, NoMemory>
    ensures { IfOk result (λ text. text.items ≡ report_of (list_after held.history) day) }
{
    let book = held.into_book();
    let lines = day_lines_parallel(rt, alloc, &book, day);
    drop(book);
    let lines = lines?;
    report_text(alloc, &lines)
}

/// What a day comes to that ended so, and whose report came to this: want of memory is told before any other fault, and a fault of the report
/// before one of the day.
pub(crate) fn ended(
    served: Result<(), ServeFault>,
    reported: Result<(), ServeFault>,
) -> Result<(), ServeFault>
    ensures ok { OnOk result (IsOk served × IsOk reported) }
    ensures connection { result ≡ Err ServeFault.Connection → reported ≢ Err ServeFault.Connection → (served ≡ Err ServeFault.Connection) × IsOk reported }
{
    match (served, reported) {
        (Err(ServeFault::NoMemory), _) | (_, Err(ServeFault::NoMemory)) => {
            Err(ServeFault::NoMemory)
        }
        (_, Err(fault)) => Err(fault),
        (served, Ok(())) => served,
    }
}

//! `serve_kept_day`: an open day that is kept in a journal, so that it outlives a crash; and the desk that a journal leads to.
ghost use Rattle.std.specs.Prelude.{◌≡◌, ◌+◌, ◌<◌, ℕ, List, [], false, true, length, map, vec_len, IfErr, IfOk, IsTrue, Some, All, slice_get};
ghost use Rattle.std.specs.List.{IsDistinct, list_any};
ghost use Rattle.blot_types.specs.Keys.{same_text};
ghost use Rattle.blot_desk.specs.declared.event.Event.{Event};
ghost use Rattle.blot_desk.specs.Desk.{IsRun, events_of};
ghost use Rattle.blot_desk.specs.Keeping.{IsBeginning, kept_events};
ghost use Rattle.blot_journal.specs.File.{text_of};
ghost use Rattle.blot_operator.specs.OpenDay.{EndsOf};
ghost use Rattle.blot_diary.specs.Diary.{Leaves, desk_events};
ghost use Rattle.blot_recovery.specs.Parties.{IsKeptPeer};
ghost use Rattle.blotter.specs.Keeping.{IsListed, IsUnkept, KeptDayServed, ServesFirst, listed_as};

use crate::open_day::{OPERATOR, Served, serve_desk};
use crate::serving::both;
use crate::settling::{ended, report_kept};
use blot_desk::{Held, Seat};
use blot_diary::Diary;
use blot_gateway::Clock as _;
use blot_journal::Device;
use blot_lanes::{BrokerSeat, ListedPeer};
use blot_operator::OperatorSeat;
use blot_recovery::{
    InMemory, KeptOperator, KeptOperators, KeptPeer, OPERATOR_SEATS, OpenFault, RecoverFault,
    Recovered, open_day, recover,
};
use blot_sockets::{Door, SystemClock};
use blot_stream::ServeFault;
use blot_time::Day;
use blot_types::Text64;
use log::Log;
use std::alloc::{AllocError as NoMemory, Global};
use std::io::{Read, Write};
use std::net::{OpenListener, OpenStream};
use std::sync::Wait;
use std::sync::ledger::{Blank, Ledger};
use std::thread::Threads;
use std::time::Clock;

/// Why a day that is kept wasn't served, or what it met.
#[derive(Clone, Copy, Debug, PartialEq, Eq)]
pub enum KeptFault {
    /// The journal isn't taken up, and nothing was served.
    Opening(OpenFault),
    /// The fault of an open day. Lines with Journal: the journal can't be written any more; then no report is written.
    Serving(ServeFault),
}

/// Serves an open day as `serve_open_day` does, and keeps it in the journal of this file: from what the journal has, on. What is told to a broker
/// or to the operator is durable before, and so is all that the report shows.
///
/// The file is handed back with a fault, unless there was no memory to begin; it tells why it can't be written.
pub fn serve_kept_day<L, R, N, H, I, O, D>(
    rt: &R,
    alloc: Global,
    blank: Blank,
    device: D,
    listener: &N,
    door: &Door<H>,
    lanes: u16,
    own: Text64,
    peers: &[Text64],
    day: Day,
    input: &mut I,
    output: &mut O,
) -> Result<Diary<D>, (KeptFault, Option<D>)>
where
    L: Ledger + Send + Sync,
    R: Threads + Wait + Clock + Log + Sync,
    N: OpenListener + Sync,
    N::Stream: Read + Write + OpenStream + Send,
    H: OpenStream + Sync,
    I: Read,
    O: Write,
    D: Device + Drop + Send + Sync,
    requires name { blank.name ≡ L.name }
    requires parts { blank.parts ≡ L.parts }
    requires seats { blank.parts ≡ length peers.now + OPERATOR_SEATS }
    requires distinct { IsDistinct same_text peers.now }
    requires others { list_any (same_text own) peers.now ≡ false }
    requires readable { IsTrue (D.is_readable device) }

    // From the events that the file has, on: the operator's lines are answered, and the report is that of the events that are kept at last.
    ensures served { IfOk result (λ last. KeptDayServed own (text_of (D.seen device)) (desk_events last.text) (I.remaining input.old) day
        (O.contents output.old) (O.contents output.new)) }
    ensures read_to_the_end { IfOk result (λ last. EndsOf true (I.remaining input.old) (I.remaining input.new)) }

    // All of these are durable.
    ensures durable { IfOk result (λ last. length (desk_events last.durable) ≡ length (desk_events last.text)) }

    // A crash now leaves a beginning of them with all that are durable, and one at any moment since the journal was opened, inside its calls
    // too, would have left a beginning of them, whatever the brokers and the operator did.
    ensures now { IfOk result (λ last. (left : List Event) → Leaves (D.may_leave last.device) left
        → IsBeginning (length (desk_events last.durable)) (desk_events last.text) left) }
    ensures ever { IfOk result (λ last. (left : List Event) → Leaves (D.left_since last.device last.since) left
        → IsBeginning (length (desk_events last.found)) (desk_events last.text) left) }
    ensures fault { IfErr result (λ refused. IsUnkept own day peers.now (D.seen device) refused.0) }
{
    let now = SystemClock::new(rt).now();
    let operator = Text64::of(OPERATOR);
    match open_day::<L, D>(alloc, blank, device, own, day, now, peers, Some(operator)) {
        Ok((diary, recovered)) => serve_recovered(
            rt, alloc, recovered, diary, listener, door, lanes, own, day, input, output,
        ),
        Err((fault, device)) => Err((KeptFault::Opening(fault), Some(device))),
    }
}

// Serves a day from what its journal had when it was opened, on.
fn serve_recovered<L, R, N, H, I, O, D>(
    rt: &R,
    alloc: Global,
    recovered: Recovered<L>,
    diary: Diary<D>,
    listener: &N,
    door: &Door<H>,
    lanes: u16,
    own: Text64,
    day: Day,
    input: &mut I,
    output: &mut O,
) -> Result<Diary<D>, (KeptFault, Option<D>)>
where
    L: Ledger + Send + Sync,
    R: Threads + Wait + Clock + Log + Sync,
    N: OpenListener + Sync,
    N::Stream: Read + Write + OpenStream + Send,
    H: OpenStream + Sync,
    I: Read,
    O: Write,
    D: Device + Drop + Send + Sync,
    requires kept { kept_events recovered.opening.history ≡ desk_events diary.text }
    requires peers { All (IsKeptPeer own diary.text) recovered.peers.items }
    requires some { 0 < vec_len recovered.operators.named }
    ensures served { IfOk result (λ last. ServesFirst (desk_events last.text) recovered.operators.named.items (I.remaining input.old) day
        (O.contents output.old) (O.contents output.new)) }
    ensures read_to_the_end { IfOk result (λ last. EndsOf true (I.remaining input.old) (I.remaining input.new)) }
    ensures durable { IfOk result (λ last. length (desk_events last.durable) ≡ length (desk_events last.text)) }
    ensures now { IfOk result (λ last. (left : List Event) → Leaves (D.may_leave last.device) left
        → IsBeginning (length (desk_events last.durable)) (desk_events last.text) left) }
    ensures ever { IfOk result (λ last. (left : List Event) → Leaves (D.left_since last.device last.since) left
        → IsBeginning (length (desk_events last.found)) (desk_events last.text) left) }
    ensures fault { IfErr result (λ refused. (peers : List (List ℕ)) (file : List ℕ) → IsUnkept own day peers file refused.0) }
{
    let Recovered {
        opening,
        peers: kept,
        operators,
        ..
    } = recovered;
    let Ok(listed) = kept_peers(alloc, kept) else {
        return Err((KeptFault::Serving(ServeFault::NoMemory), None));
    };
    let Ok((operator, others)) = first_of(operators) else {
        return Err((KeptFault::Serving(ServeFault::NoMemory), None));
    };
    let desk = opening.open(diary);
    let operator = OperatorSeat::new(operator.seat, own, operator.name, operator.records);
    let served = match serve_desk(
        rt, alloc, desk, listener, door, lanes, own, listed, operator, others, input, output,
    ) {
        Ok(served) => served,
        Err(fault) => return Err((KeptFault::Serving(fault), None)),
    };
    let Served {
        desk,
        seats,
        answered,
    } = served;
    let (reported, diary) = report_kept(rt, alloc, desk, seats, day, output);
    match ended(both(Ok(()), answered), reported) {
        Ok(()) => Ok(diary),
        Err(fault) => Err((KeptFault::Serving(fault), Some(diary.into_device()))),
    }
}

// The first of some operators, and the seats of the others and those that nobody has.
fn first_of<L: Ledger>(
    operators: KeptOperators<L>,
) -> Result<(KeptOperator<L>, Vec<Seat<L>>), NoMemory>
    requires { 0 < vec_len operators.named }
    ensures { IfOk result (λ given. slice_get operators.named.items 0 ≡ Some given.0) }
{
    let KeptOperators { named, spare } = operators;
    let mut named = named.into_iter();
    let first = named.next().unwrap();
    let mut others = spare;
    for it in named {
        let KeptOperator { seat, .. } = it;
        others.push(seat)?;
    }
    Ok((first, others))
}

/// The listed peers as the text of a journal leaves them.
pub(crate) fn kept_peers<L: Ledger>(
    alloc: Global,
    kept: Vec<KeptPeer<L>>,
) -> Result<Vec<ListedPeer<L>>, NoMemory>
    requires { All IsListed kept.items }
    ensures { IfOk result (λ listed. listed.items ≡ map listed_as kept.items) }
{
    let mut listed = Vec::with_capacity(alloc, kept.len())?;
    for it in kept {
        let KeptPeer {
            peer,
            seat,
            numbers,
            records,
        } = it;
        let seat = BrokerSeat::new(peer, seat, records);
        listed.push(ListedPeer::new(seat, numbers.expected, numbers.next))?;
    }
    Ok(listed)
}

/// The desk of the text of a journal of this blotter: its events, each stepped by its party. The day of the journal isn't asked for. Before
/// its first frame it has no event.
pub fn journal_desk<L: Ledger>(
    alloc: Global,
    blank: Blank,
    text: &[u8],
    own: Text64,
    peers: &[Text64],
) -> Result<Held, RecoverFault>
    requires name { blank.name ≡ L.name }
    requires parts { blank.parts ≡ L.parts }
    requires seats { blank.parts ≡ length peers.now + OPERATOR_SEATS }
    requires distinct { IsDistinct same_text peers.now }
    requires others { list_any (same_text own) peers.now ≡ false }
    ensures events { IfOk result (λ held. events_of held.history ≡ desk_events text.now) }
    ensures run { IfOk result IsRun }
{
    if text.is_empty() {
        return Ok(empty_desk(alloc));
    }
    let mut text = InMemory { text };
    match recover::<L, _>(alloc, blank, &mut text, own, None, peers, None) {
        Ok(recovered) => Ok(held_of(recovered)),
        Err(fault) => Err(fault),
    }
}

// The desk of a day to which nothing has come yet.
fn empty_desk(alloc: Global) -> Held
    ensures events { events_of result.history ≡ [] }
    ensures run { IsRun result }
{
    let held = Held::new(alloc);
    // The history promises that it is that of a run.
    let _ = held.history();
    held
}

// The desk of what was taken up.
fn held_of<L: Ledger>(recovered: Recovered<L>) -> Held
    ensures { result ≡ recovered.opening }
{
    let Recovered { opening, .. } = recovered;
    opening.into_held()
}

//! `serve_open_day`: connections served in lanes while an operator's lines are answered, and the report of the day.
ghost use Rattle.std.specs.Prelude.{◌≡◌, ◌+◌, ◌++◌, [], length, map, true, vec_len, IfOk, OnOk, All};
ghost use Rattle.std.specs.List.{IsDistinct};
ghost use Rattle.blot_types.specs.Keys.{same_text};
ghost use Rattle.blot_operator.specs.OpenDay.{EndsOf};
ghost use Rattle.blotter.specs.Serving.{OpenDayServed, ServedBy, begins_as};

use crate::meanwhile::{OpenLines, take_back};
use crate::serving::{both, open_desk};
use crate::settling::{all_seats, ended, report_kept};
use blot_desk::{Desk, Seat};
use blot_gateway::FrameKeeper;
use blot_lanes::{BrokerSeat, ListedPeer, Peers, serve_lanes};
use blot_operator::OperatorSeat;
use blot_sockets::Door;
use blot_stream::{ReplayFault, ServeFault};
use blot_time::Day;
use blot_types::Text64;
use log::Log;
use std::alloc::{AllocError as NoMemory, Global};
use std::io::{Read, Write};
use std::net::{OpenListener, OpenStream};
use std::sync::Wait;
use std::sync::ledger::{Blank, Ledger};
use std::thread::Threads;
use std::time::Clock;

/// The name of the operator whose lines come by standard input.
pub(crate) const OPERATOR: &[u8] = b"operator";

/// What a desk that was served in lanes leaves: the seats of the brokers, and behind them those of the operators; and how the lines of the
/// operator at standard input ended.
#[derive(Drop)]
pub(crate) struct Served<L: Ledger, K: FrameKeeper> {
    pub(crate) desk: Desk<L, K>,
    pub(crate) seats: Vec<Seat<L>>,
    pub(crate) answered: Result<(), ReplayFault>,
}

/// Serves an open day: each listed peer may connect at any time, leave and come back, whatever the others do, in so many lanes; and meanwhile
/// an operator's lines are answered, through a seat of their own. Each peer has one session and one seat for the whole day. Where the
/// lines end, or one of them closes the day, the door is closed, each session that is on sends a Logout, and is served for two reads more.
/// Then the seats are settled with the desk, and the report of the day is written.
///
/// NoMemory: memory ran out; before any connection is taken where there is no thread for a lane. Lines: they stopped, as `seat_lines` says,
/// which ends the day, or the report can't be written. After each of these the report is still written if it can be. Unsettled: the receipts
/// aren't those of the history.
pub fn serve_open_day<L, R, N, H, I, O>(
    rt: &R,
    alloc: Global,
    blank: Blank,
    listener: &N,
    door: &Door<H>,
    lanes: u16,
    own: Text64,
    peers: &[Text64],
    day: Day,
    input: &mut I,
    output: &mut O,
) -> Result<(), ServeFault>
where
    L: Ledger + Send + Sync,
    R: Threads + Wait + Clock + Log + Sync,
    N: OpenListener + Sync,
    N::Stream: Read + Write + OpenStream + Send,
    H: OpenStream + Sync,
    I: Read,
    O: Write,
    requires name { blank.name ≡ L.name }
    requires parts { blank.parts ≡ L.parts }
    requires seats { blank.parts ≡ length peers.now + 1 }
    requires peers { IsDistinct same_text peers.now }
    ensures served { OnOk result (OpenDayServed (I.remaining input.old) day (O.contents output.old) (O.contents output.new)) }
    ensures read_to_the_end { OnOk result (EndsOf true (I.remaining input.old) (I.remaining input.new)) }
{
    let Ok(brokers) = u32::try_from(peers.len()) else {
        return Err(ServeFault::NoMemory);
    };
    if brokers == u32::MAX {
        return Err(ServeFault::NoMemory);
    }
    let (desk, seats, operator) = open_desk::<L>(alloc, blank, brokers)?;
    let listed = first_peers(alloc, peers, seats)?;
    let operator = OperatorSeat::new(operator, own, Text64::of(OPERATOR), 0);
    let others = Vec::new(alloc);
    let served = serve_desk(
        rt, alloc, desk, listener, door, lanes, own, listed, operator, others, input, output,
    )?;
    let Served {
        desk,
        seats,
        answered,
    } = served;
    let (reported, _) = report_kept(rt, alloc, desk, seats, day, output);
    ended(both(Ok(()), answered), reported)
}

/// Serves the connections of listed peers at a desk, and answers an operator's lines meanwhile. Others have seats too, and nobody is at them.
pub(crate) fn serve_desk<L, R, N, H, I, O, K>(
    rt: &R,
    alloc: Global,
    desk: Desk<L, K>,
    listener: &N,
    door: &Door<H>,
    lanes: u16,
    own: Text64,
    listed: Vec<ListedPeer<L>>,
    operator: OperatorSeat<L>,
    others: Vec<Seat<L>>,
    input: &mut I,
    output: &mut O,
) -> Result<Served<L, K>, ServeFault>
where
    L: Ledger + Send + Sync,
    R: Threads + Wait + Clock + Log + Sync,
    N: OpenListener + Sync,
    N::Stream: Read + Write + OpenStream + Send,
    H: OpenStream + Sync,
    I: Read,
    O: Write,
    K: FrameKeeper + Send + Sync,
    ensures told { IfOk result (λ served. OnOk served.answered (ServedBy K.IsKept operator others.items (I.remaining input.old)
        (O.contents output.old) (O.contents output.new) served.seats.items)) }
    ensures read_to_the_end { IfOk result (λ served. OnOk served.answered (EndsOf true (I.remaining input.old) (I.remaining input.new))) }
{
    // Room for all seats, so that the end of the day asks for no memory to gather them.
    let room = Vec::with_capacity(
        alloc,
        listed.len().saturating_add(1).saturating_add(others.len()),
    )?;
    let Ok(peers) = Peers::new(alloc, own, listed) else {
        return Err(ServeFault::NoMemory);
    };
    let lines = OpenLines {
        rt,
        alloc,
        input,
        output,
        desk: &desk,
        seat: operator,
        peers: &peers,
        door,
    };
    let (answered, operator, input, output) = serve_lanes(
        rt, alloc, listener, &peers, &desk, door, lanes, lines,
    )?;
    take_back(input);
    take_back(output);
    let brokers = peers.into_seats(room)?;
    let seats = put_behind(all_seats(brokers, operator.into_seat())?, others)?;
    Ok(Served {
        desk,
        seats,
        answered,
    })
}

// Some seats, and others behind them.
fn put_behind<L: Ledger>(
    seats: Vec<Seat<L>>,
    others: Vec<Seat<L>>,
) -> Result<Vec<Seat<L>>, NoMemory>
    ensures { IfOk result (λ all. all.items ≡ seats.items ++ others.items) }
{
    let mut all = seats;
    let mut others = others;
    match all.append(&mut others) {
        Ok(()) => Ok(all),
        Err(_) => Err(NoMemory),
    }
}

/// The listed peers of a day that begins, each with a seat that has no receipts. Its session expects number 1, and sends number 1 next.
pub(crate) fn first_peers<L: Ledger>(
    alloc: Global,
    peers: &[Text64],
    seats: Vec<Seat<L>>,
) -> Result<Vec<ListedPeer<L>>, NoMemory>
    requires count { vec_len seats ≡ length peers.now }
    requires empty { All (λ receipts. receipts ≡ []) seats.items }
    ensures { IfOk result (λ listed. listed.items ≡ map begins_as peers.now) }
{
    let mut listed = Vec::with_capacity(alloc, peers.len())?;
    let mut seats = seats.into_iter();
    for peer in peers {
        let seat = BrokerSeat::new(*peer, seats.next().unwrap(), 0);
        listed.push(ListedPeer::new(seat, 1, 1))?;
    }
    Ok(listed)
}

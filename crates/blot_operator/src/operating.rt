//! `desk_lines`, `seat_lines` and `open_lines`: the lines of an input answered, at a desk of one's own, from a seat, or from a seat on
//! an open day.
ghost use Rattle.std.specs.Prelude.{◌≡◌, ◌≢◌, ◌⊎◌, Err, IfSome, OnOk, OnErr};
ghost use Rattle.std.specs.Io.KnownBytes.{IsAtEnd};
ghost use Rattle.blot_desk.specs.Keeping.{IsUnwritten};
ghost use Rattle.blot_stream.specs.Texts.{AppendsOf, lines_of};
ghost use Rattle.blot_operator.specs.Dialogue.{open_ways, seat_ways, HeardOf, StopsOf, TellsOf};
ghost use Rattle.blot_operator.specs.OpenDay.{ClosedOf, EndsOf};
ghost use Rattle.blot_operator.specs.Operating.{answers_of, told_over, StoppedIn};

use crate::OperatorSeat;
use crate::lines::{answer_last, answer_piece};
use crate::operated::{Open, OpenDay, Operated, Own, Shared};
use blot_desk::{Desk, Held, Seat};
use blot_gateway::{FrameKeeper, READS_MAX, empty_piece};
use blot_stream::{ReplayFault, read_piece};
use std::alloc::Global;
use std::io::{Read, Write};
use std::sync::Wait;
use std::sync::ledger::Ledger;
use std::time;

/// Answers an operator's lines to the end of the input. Each line's answer is written and flushed before the next line
/// is taken. `mine` withdraws the newest entry of the desk; where there is none it is no event, and answered by `none`. A
/// line that asks a question is answered by what is found, and is no event. A line that asks nothing is answered by its
/// fault, and an event that the desk has no room for by `full`; each leaves what the desk holds as it is, and the next line
/// is taken. It ends early where a read, a write or a flush fails, where memory runs out, and after 2^30 reads; never as
/// `Full`.
pub fn desk_lines<R: Read, W: Write>(
    alloc: Global,
    input: &mut R,
    output: &mut W,
    held: &mut Held,
) -> Result<(), ReplayFault>
    ensures desk { OnOk result (IfSome (R.remaining input.old) (λ bytes. held.new ≡ (told_over held.old (lines_of bytes)).desk)) }
    ensures wrote { OnOk result (AppendsOf (answers_of held.old) (R.remaining input.old) (W.contents output.old) (W.contents output.new)) }
    ensures read_to_the_end { OnOk result (IsAtEnd (R.remaining input.new)) }

    // After a fault the lines of a front were taken, and a front of the last answer was written.
    ensures fault { OnErr result (IfSome (R.remaining input.old) (λ bytes.
        StoppedIn held.old (lines_of bytes) held.new (W.contents output.old) (W.contents output.new))) }
    ensures never_full { result ≢ Err ReplayFault.Full }
{
    answer_lines(alloc, input, output, &Own, held)
}

/// The same for a seat at a desk of many. Each event of the lines is submitted once. The seat gets a receipt of the reply, and the
/// line is answered by that reply; an event that is answered by `full` has no receipt, and no other line has one. `mine` withdraws
/// the newest entry that the seat itself submitted, as its receipts show it. A report shows the desk as it is when its line is
/// taken.
pub fn seat_lines<R: Read, W: Write, L: Ledger>(
    rt: &impl Wait,
    alloc: Global,
    input: &mut R,
    output: &mut W,
    desk: &Desk<L>,
    seat: &mut Seat<L>,
) -> Result<(), ReplayFault>
    ensures told { OnOk result (TellsOf seat_ways seat.old (R.remaining input.old) seat.new
        (W.contents output.old) (W.contents output.new)) }
    ensures read_to_the_end { OnOk result (IsAtEnd (R.remaining input.new)) }

    // After a fault the lines of a front were taken, and a front of the last answer was written.
    ensures fault { OnErr result (StopsOf seat_ways seat.old (R.remaining input.old) seat.new
        (W.contents output.old) (W.contents output.new)) }
    ensures never_full { result ≢ Err ReplayFault.Full }
{
    answer_lines(alloc, input, output, &Shared { rt, desk }, seat)
}

/// The same on an open day, whose two lines are known too: `sessions` is answered by what the day tells of its sessions, and `close`
/// by `closed`, once the day is closed. Neither is an event. Behind the first `close` nothing is heard: the call is Ok then, without the rest of
/// the input. What the end of the input means for the day is up to whoever calls.
///
/// Where the desk keeps its events, that of a line is kept with the line, `mine` as the withdrawal that it came to, and each answer is written
/// when all that the desk keeps is durable. A line that can't be kept is answered by `bad>4`, and leaves all as it is. Journal: what keeps the
/// events can't be written.
pub fn open_lines<R: Wait + time::Clock, I: Read, O: Write, L: Ledger, K: FrameKeeper, D: OpenDay>(
    rt: &R,
    alloc: Global,
    input: &mut I,
    output: &mut O,
    desk: &Desk<L, K>,
    seat: &mut OperatorSeat<L>,
    day: &D,
) -> Result<(), ReplayFault>
    ensures told { OnOk result (HeardOf (open_ways K.IsKept) seat.old (I.remaining input.old) seat.new
        (O.contents output.old) (O.contents output.new)) }
    ensures read_to_the_end { OnOk result (IsAtEnd (I.remaining input.new) ⊎ ClosedOf (I.remaining input.old)) }

    // After a fault the lines of a front were taken, none of which closes the day, and a front of the last answer was written.
    ensures fault { OnErr result (StopsOf (open_ways K.IsKept) seat.old (I.remaining input.old) seat.new
        (O.contents output.old) (O.contents output.new)) }
    ensures never_full { result ≢ Err ReplayFault.Full }

    // Journal is told of a keeper that is broken.
    ensures broken { result ≡ Err ReplayFault.Journal → IsUnwritten K.is_broken }
{
    answer_lines(alloc, input, output, &Open { rt, desk, day }, seat)
}

// Answers the lines of an input to its end, or to the first that closes the day.
fn answer_lines<R: Read, W: Write, D: Operated>(
    alloc: Global,
    input: &mut R,
    output: &mut W,
    desk: &D,
    state: &mut D::State,
) -> Result<(), ReplayFault>
    ensures told { OnOk result (HeardOf D.ways state.old (R.remaining input.old) state.new
        (W.contents output.old) (W.contents output.new)) }
    ensures read_to_the_end { OnOk result (EndsOf D.ways.is_open (R.remaining input.old) (R.remaining input.new)) }
    ensures fault { OnErr result (StopsOf D.ways state.old (R.remaining input.old) state.new
        (W.contents output.old) (W.contents output.new)) }
    ensures never_full { result ≢ Err ReplayFault.Full }
    ensures broken { result ≡ Err ReplayFault.Journal → D.IsBroken }
{
    let mut line = Vec::new(alloc);
    let mut buffer = empty_piece(alloc)?;
    for _ in 0..READS_MAX {
        let Some(count) = read_piece(input, &mut buffer)? else {
            return answer_last(alloc, desk, state, output, &line);
        };
        let closed = answer_piece(alloc, desk, state, output, &mut line, &buffer[..count])?;
        if closed {
            return Ok(());
        }
    }
    Err(ReplayFault::TooLong)
}

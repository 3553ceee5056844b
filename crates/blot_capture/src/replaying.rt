//! `replay`: a capture taken into an empty desk, and the report of its day.
ghost use Rattle.std.specs.Prelude.{◌≡◌, ◌≢◌, ◌≤◌, List, ℕ, length, Err, IfErr, IfOk, OnOk};
ghost use Rattle.std.specs.Io.KnownBytes.{IsAtEnd};
ghost use Rattle.std.specs.List.{IsDistinct};
ghost use Rattle.blot_types.specs.Keys.{same_text};
ghost use Rattle.blot_desk.specs.Desk.{events_of, run_of};
ghost use Rattle.blot_stream.specs.Texts.{AppendsFrontOf, AppendsOf, IsTextOf, KeepsUnlessWrite};
ghost use Rattle.blot_report.specs.Text.{report_of};
ghost use Rattle.blot_capture.specs.Replay.{Fits, Overfills, replay_of};
ghost use Rattle.blot_capture.specs.Trace.{IsReplayed};

use crate::capturing::capture_within;
use blot_desk::Unrecorded;
use blot_gateway::READS_MAX;
use blot_report::{day_lines, report_text};
use blot_stream::{ReplayFault, write_text};
use blot_time::Day;
use blot_types::{EVENTS_MAX, Text64};
use std::alloc::{AllocError as NoMemory, Global};
use std::io::{Read, Write};

/// Takes a capture to its end, as `capture` does into an empty desk, and writes the report of a day. Nothing is written
/// before the end of the input. No peer may be listed twice.
pub fn replay<R: Read, W: Write>(
    alloc: Global,
    input: &mut R,
    output: &mut W,
    own: Text64,
    peers: &[Text64],
    day: Day,
) -> Result<(), ReplayFault>
    requires { IsDistinct same_text peers.now }
    ensures wrote { OnOk result (AppendsOf (replay_of own peers.now day) (R.remaining input.old)
        (W.contents output.old) (W.contents output.new)) }
    ensures read_to_the_end { OnOk result (IsAtEnd (R.remaining input.new)) }

    // The list that it reports on is what the messages put into the book, one by one, as an audit trail tells them.
    ensures traced { (bytes : List ℕ) → IsReplayed own peers.now bytes }

    // Ok only where no more commands come than a day has events, and Full only where more come.
    ensures few { OnOk result (Fits own peers.now (R.remaining input.old)) }
    ensures full { result ≡ Err ReplayFault.Full → Overfills own peers.now (R.remaining input.old) }

    // A write fault leaves a front of the text, every other fault nothing.
    ensures write_fault { result ≡ Err ReplayFault.Write → AppendsFrontOf (replay_of own peers.now day) (R.remaining input.old)
        (W.contents output.old) (W.contents output.new) }
    ensures other_faults { IfErr result (KeepsUnlessWrite (W.contents output.old) (W.contents output.new)) }
{
    replay_within(alloc, input, output, own, peers, day, READS_MAX)
}

/// Takes a capture and writes the report of a day as `replay` does, with this many reads at most: TooLong is answered where that many
/// were made and one more is needed, if only to find the end.
pub fn replay_within<R: Read, W: Write>(
    alloc: Global,
    input: &mut R,
    output: &mut W,
    own: Text64,
    peers: &[Text64],
    day: Day,
    reads: u64,
) -> Result<(), ReplayFault>
    requires { IsDistinct same_text peers.now }
    ensures wrote { OnOk result (AppendsOf (replay_of own peers.now day) (R.remaining input.old)
        (W.contents output.old) (W.contents output.new)) }
    ensures read_to_the_end { OnOk result (IsAtEnd (R.remaining input.new)) }
    ensures few { OnOk result (Fits own peers.now (R.remaining input.old)) }
    ensures full { result ≡ Err ReplayFault.Full → Overfills own peers.now (R.remaining input.old) }
    ensures write_fault { result ≡ Err ReplayFault.Write → AppendsFrontOf (replay_of own peers.now day) (R.remaining input.old)
        (W.contents output.old) (W.contents output.new) }
    ensures other_faults { IfErr result (KeepsUnlessWrite (W.contents output.old) (W.contents output.new)) }
{
    match captured_report(alloc, input, own, peers, day, reads) {
        Ok(text) => write_text(output, &text),
        Err(fault) => Err(fault),
    }
}

// The report of a day of a capture.
fn captured_report<R: Read>(
    alloc: Global,
    input: &mut R,
    own: Text64,
    peers: &[Text64],
    day: Day,
    reads: u64,
) -> Result<Vec<u8>, ReplayFault>
    requires { IsDistinct same_text peers.now }
    ensures text { IfOk result (λ text. IsTextOf (replay_of own peers.now day) (R.remaining input.old) text.items) }
    ensures read_to_the_end { OnOk result (IsAtEnd (R.remaining input.new)) }
    ensures few { OnOk result (Fits own peers.now (R.remaining input.old)) }
    ensures full { result ≡ Err ReplayFault.Full → Overfills own peers.now (R.remaining input.old) }
    ensures no_write { result ≢ Err ReplayFault.Write }
{
    let mut desk = Unrecorded::new(alloc);
    if let Err(fault) = capture_within(alloc, input, own, peers, &mut desk, reads) {
        drop(desk);
        return Err(fault);
    }
    match day_report(alloc, desk, day) {
        Ok(text) => Ok(text),
        Err(_) => Err(ReplayFault::NoMemory),
    }
}

// The report of a day of a desk, whose steps go first, so that the report takes their room.
fn day_report(alloc: Global, desk: Unrecorded, day: Day) -> Result<Vec<u8>, NoMemory>
    ensures text { IfOk result (λ text. text.items ≡ report_of (run_of (events_of desk.history)).book.list day) }
    ensures few { length desk.history ≤ EVENTS_MAX }
{
    let book = desk.into_book();
    let lines = day_lines(alloc, &book, day);
    drop(book);
    let lines = lines?;
    report_text(alloc, &lines)
}

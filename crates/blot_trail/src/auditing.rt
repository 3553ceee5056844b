//! `audit`: a capture taken into an empty desk, and the trail of what became of each message.
ghost use Rattle.std.specs.Prelude.{◌≡◌, ◌≢◌, ◌≤◌, List, ℕ, length, Err, IfErr, IfOk, OnOk};
ghost use Rattle.std.specs.Io.KnownBytes.{IsAtEnd};
ghost use Rattle.std.specs.List.{IsDistinct};
ghost use Rattle.blot_types.specs.declared.TheConstants.{EVENTS_MAX};
ghost use Rattle.blot_types.specs.Keys.{same_text};
ghost use Rattle.blot_stream.specs.Texts.{AppendsFrontOf, AppendsOf, IsTextOf, KeepsUnlessWrite};
ghost use Rattle.blot_capture.specs.Replay.{Fits, Overfills, StoppedOf, TakenOf};
ghost use Rattle.blot_capture.specs.Sessions.{taking_of};
ghost use Rattle.blot_capture.specs.Trace.{IsReplayed};
ghost use Rattle.blot_trail.specs.Audit.{trail_of};
ghost use Rattle.blot_trail.specs.Making.{none_yet, trail_from};

use crate::telling::tell_piece;
use crate::trail::Trail;
use blot_capture::Sessions;
use blot_desk::Unrecorded;
use blot_gateway::{READS_MAX, empty_piece};
use blot_stream::{ReplayFault, read_piece, write_text};
use blot_tag::Reader;
use blot_types::Text64;
use std::alloc::Global;
use std::io::{Read, Write};

/// Takes a capture to its end, as `replay` does, and writes its audit trail: what became of each message, in the order of the
/// stream. Nothing is written before the end of the input. No peer may be listed twice.
pub fn audit<R: Read, W: Write>(
    alloc: Global,
    input: &mut R,
    output: &mut W,
    own: Text64,
    peers: &[Text64],
) -> Result<(), ReplayFault>
    requires { IsDistinct same_text peers.now }
    ensures wrote { OnOk result (AppendsOf (trail_of own peers.now) (R.remaining input.old)
        (W.contents output.old) (W.contents output.new)) }
    ensures read_to_the_end { OnOk result (IsAtEnd (R.remaining input.new)) }

    // The commands that a trail shows are those that `replay` submits, their replies those of its run, and the accepted ones are the
    // live list that its report is made of.
    ensures replayed { (bytes : List ℕ) → IsReplayed own peers.now bytes }

    // Ok only where no more commands come than a day has events, and Full only where more come.
    ensures few { OnOk result (Fits own peers.now (R.remaining input.old)) }
    ensures full { result ≡ Err ReplayFault.Full → Overfills own peers.now (R.remaining input.old) }

    // A write fault leaves a front of the trail, every other fault nothing.
    ensures write_fault { result ≡ Err ReplayFault.Write → AppendsFrontOf (trail_of own peers.now) (R.remaining input.old)
        (W.contents output.old) (W.contents output.new) }
    ensures other_faults { IfErr result (KeepsUnlessWrite (W.contents output.old) (W.contents output.new)) }
{
    match captured_trail(alloc, input, own, peers) {
        Ok(text) => write_text(output, &text),
        Err(fault) => Err(fault),
    }
}

// The trail of a capture.
fn captured_trail<R: Read>(
    alloc: Global,
    input: &mut R,
    own: Text64,
    peers: &[Text64],
) -> Result<Vec<u8>, ReplayFault>
    requires { IsDistinct same_text peers.now }
    ensures text { IfOk result (λ text. IsTextOf (trail_of own peers.now) (R.remaining input.old) text.items) }
    ensures read_to_the_end { OnOk result (IsAtEnd (R.remaining input.new)) }
    ensures few { OnOk result (Fits own peers.now (R.remaining input.old)) }
    ensures full { result ≡ Err ReplayFault.Full → Overfills own peers.now (R.remaining input.old) }
    ensures no_write { result ≢ Err ReplayFault.Write }
{
    let mut desk = Unrecorded::new(alloc);
    match Sessions::new(alloc, own, peers) {
        Ok(mut sessions) => {
            let told = tell_all(alloc, input, &mut sessions, &mut desk);
            drop(desk);
            told
        }
        Err(_) => {
            drop(desk);
            Err(ReplayFault::NoMemory)
        }
    }
}

// The trail of an input, to its end.
fn tell_all<R: Read>(
    alloc: Global,
    input: &mut R,
    sessions: &mut Sessions,
    desk: &mut Unrecorded,
) -> Result<Vec<u8>, ReplayFault>
    ensures text { IfOk result (λ text. IsTextOf (trail_from none_yet (taking_of sessions.old desk.old))
        (R.remaining input.old) text.items) }
    ensures taken { OnOk result (TakenOf (R.remaining input.old) (taking_of sessions.old desk.old) desk.new) }
    ensures few { OnOk result (length desk.new.history ≤ EVENTS_MAX) }
    ensures read_to_the_end { OnOk result (IsAtEnd (R.remaining input.new)) }
    ensures stopped { IfErr result (StoppedOf (R.remaining input.old) (taking_of sessions.old desk.old) desk.new) }
    ensures no_write { result ≢ Err ReplayFault.Write }
{
    let mut reader = Reader::new(alloc);
    let mut trail = Trail::new(alloc);
    let mut buffer = empty_piece(alloc)?;
    let mut total = 0;
    for _ in 0..READS_MAX {
        let Some(count) = read_piece(input, &mut buffer)? else {
            // A desk tells that no more came than a day has events.
            let _events = desk.events();
            let rest = total - trail.offset();
            return Ok(trail.finish(alloc, rest)?);
        };
        total += count as u64;
        match tell_piece(
            alloc,
            &mut reader,
            sessions,
            desk,
            &mut trail,
            &buffer[..count],
        ) {
            Ok(()) => {}
            Err(fault) => return Err(fault),
        }
    }
    Err(ReplayFault::TooLong)
}

//! `capture`: the frames of a byte stream at the sessions of their senders, and what these deliver at a desk.
ghost use Rattle.std.specs.Prelude.{◌≢◌, Err, OnOk, IfErr};
ghost use Rattle.std.specs.Io.KnownBytes.{IsAtEnd};
ghost use Rattle.std.specs.List.{IsDistinct};
ghost use Rattle.blot_types.specs.Keys.{same_text};
ghost use Rattle.blot_capture.specs.Capture.{TakesEachPeer};
ghost use Rattle.blot_capture.specs.Sessions.{taking_of};
ghost use Rattle.blot_capture.specs.Replay.{StoppedOf, TakenOf, taking_from};

use crate::intake::take_piece;
use crate::sessions::Sessions;
use blot_desk::{Held, TakesCommands};
use blot_gateway::{READS_MAX, empty_piece};
use blot_stream::{ReplayFault, read_piece};
use blot_tag::Reader;
use blot_types::Text64;
use std::alloc::Global;
use std::io::Read;

/// Takes a capture into a desk, to the end of the input. Each frame goes to the session of the peer that its SenderCompID
/// names, at its own SendingTime; each command that a session takes is submitted to the desk. What a session would send is
/// dropped, and one that closes waits for its next Logon. The frames of others are passed over, and so are the bytes of an
/// unfinished frame at the end. No peer may be listed twice.
///
/// A fault is Read, Full (as many events are recorded as a day has, and a further command came), NoMemory or TooLong (2^30 reads
/// were made, and one more is needed). By then the desk has taken a front of the commands.
#[tactic(auto, using(crate::proofs::PeerLemmas::each_peer))]
pub fn capture<R: Read>(
    alloc: Global,
    input: &mut R,
    own: Text64,
    peers: &[Text64],
    held: &mut Held,
) -> Result<(), ReplayFault>
    requires { IsDistinct same_text peers.now }
    ensures taken { OnOk result (TakenOf (R.remaining input.old) (taking_from own peers.now held.old) held.new) }
    ensures read_to_the_end { OnOk result (IsAtEnd (R.remaining input.new)) }
    ensures stopped { IfErr result (StoppedOf (R.remaining input.old) (taking_from own peers.now held.old) held.new) }
    ensures no_write { result ≢ Err ReplayFault.Write }

    // The commands that a peer's frames bring are those that its own session takes of them, in their order.
    ensures each_peer { TakesEachPeer own peers.now }
{
    capture_within(alloc, input, own, peers, held, READS_MAX)
}

/// Takes a capture into a desk as `capture` does, with this many reads at most: TooLong is answered where that many were made and one
/// more is needed, if only to find the end.
pub(crate) fn capture_within<R: Read, D: TakesCommands>(
    alloc: Global,
    input: &mut R,
    own: Text64,
    peers: &[Text64],
    desk: &mut D,
    reads: u64,
) -> Result<(), ReplayFault>
    requires { IsDistinct same_text peers.now }
    ensures taken { OnOk result (TakenOf (R.remaining input.old) (taking_from own peers.now (D.desk_of desk.old)) (D.desk_of desk.new)) }
    ensures read_to_the_end { OnOk result (IsAtEnd (R.remaining input.new)) }
    ensures stopped { IfErr result (StoppedOf (R.remaining input.old) (taking_from own peers.now (D.desk_of desk.old)) (D.desk_of desk.new)) }
    ensures no_write { result ≢ Err ReplayFault.Write }
{
    match Sessions::new(alloc, own, peers) {
        Ok(mut sessions) => take_all(alloc, input, &mut sessions, desk, reads),
        Err(_) => Err(ReplayFault::NoMemory),
    }
}

// Takes the frames of an input, to its end.
fn take_all<R: Read, D: TakesCommands>(
    alloc: Global,
    input: &mut R,
    sessions: &mut Sessions,
    desk: &mut D,
    reads: u64,
) -> Result<(), ReplayFault>
    ensures taken { OnOk result (TakenOf (R.remaining input.old) (taking_of sessions.old (D.desk_of desk.old)) (D.desk_of desk.new)) }
    ensures read_to_the_end { OnOk result (IsAtEnd (R.remaining input.new)) }
    ensures stopped { IfErr result (StoppedOf (R.remaining input.old) (taking_of sessions.old (D.desk_of desk.old)) (D.desk_of desk.new)) }
    ensures no_write { result ≢ Err ReplayFault.Write }
{
    let mut reader = Reader::new(alloc);
    let mut buffer = empty_piece(alloc)?;
    for _ in 0..reads {
        let Some(count) = read_piece(input, &mut buffer)? else {
            return Ok(());
        };
        match take_piece(alloc, &mut reader, sessions, desk, &buffer[..count]) {
            Ok(()) => {}
            Err(fault) => return Err(fault),
        }
    }
    Err(ReplayFault::TooLong)
}

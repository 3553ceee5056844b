//! The frames of a byte stream, taken and told piece by piece.
ghost use Rattle.std.specs.Prelude.{◌≡◌, ◌≢◌, ◌+◌, ◌<◌, ◌≤◌, ◌^◌, ◌++◌, length, is_some, Err, IfErr, IfOk, OnOk};
ghost use Rattle.blot_tag.specs.Walking.{stops_at, walk_of};
ghost use Rattle.blot_capture.specs.Replay.{CameOn, StoppedOn};
ghost use Rattle.blot_capture.specs.Sessions.{taking_of};
ghost use Rattle.blot_trail.specs.Making.{IsInStep, Notes, TellsNext, SameTrailOn, offset_of, size_of, telling_of, behind_both, untold};

use crate::noting::take_noted;
use crate::trail::{Noted, Trail};
use blot_capture::Sessions;
use blot_desk::Unrecorded;
use blot_stream::ReplayFault;
use blot_tag::Reader;
use std::alloc::Global;

/// Takes and tells the frames of a piece of the stream, with what the reader holds of the pieces before.
pub(crate) fn tell_piece(
    alloc: Global,
    reader: &mut Reader,
    sessions: &mut Sessions,
    desk: &mut Unrecorded,
    trail: &mut Trail,
    piece: &[u8],
) -> Result<(), ReplayFault>
    requires step { IsInStep reader.old trail.old }
    requires within { offset_of trail.old + length (reader.old.unread ++ piece.now) < 2 ^ 63 }
    ensures step { OnOk result (IsInStep reader.new trail.new) }
    ensures read { OnOk result (offset_of trail.new + length reader.new.unread ≡ offset_of trail.old + length (reader.old.unread ++ piece.now)) }
    ensures drained { OnOk result (walk_of reader.new.unread ≡ stops_at reader.new.unread) }
    ensures told { OnOk result (SameTrailOn (telling_of trail.old sessions.old desk.old) (reader.old.unread ++ piece.now)
        (telling_of trail.new sessions.new desk.new) reader.new.unread) }
    ensures came { OnOk result (CameOn (taking_of sessions.old desk.old) (reader.old.unread ++ piece.now)
        (taking_of sessions.new desk.new) reader.new.unread) }
    ensures err { IfErr result (StoppedOn (taking_of sessions.old desk.old) (reader.old.unread ++ piece.now) desk.new) }
    ensures no_write { result ≢ Err ReplayFault.Write }
{
    match reader.feed(piece) {
        Ok(()) => tell_frames(alloc, reader, sessions, desk, trail),
        Err(_) => Err(ReplayFault::NoMemory),
    }
}

// Takes and tells the frames that stand in the reader, in their order.
fn tell_frames(
    alloc: Global,
    reader: &mut Reader,
    sessions: &mut Sessions,
    desk: &mut Unrecorded,
    trail: &mut Trail,
) -> Result<(), ReplayFault>
    requires step { IsInStep reader.old trail.old }
    requires within { offset_of trail.old + length reader.old.unread < 2 ^ 63 }
    ensures step { OnOk result (IsInStep reader.new trail.new) }
    ensures read { OnOk result (offset_of trail.new + length reader.new.unread ≡ offset_of trail.old + length reader.old.unread) }
    ensures drained { OnOk result (walk_of reader.new.unread ≡ stops_at reader.new.unread) }
    ensures told { OnOk result (SameTrailOn (telling_of trail.old sessions.old desk.old) reader.old.unread
        (telling_of trail.new sessions.new desk.new) reader.new.unread) }
    ensures came { OnOk result (CameOn (taking_of sessions.old desk.old) reader.old.unread
        (taking_of sessions.new desk.new) reader.new.unread) }
    ensures err { IfErr result (StoppedOn (taking_of sessions.old desk.old) reader.old.unread desk.new) }
    ensures no_write { result ≢ Err ReplayFault.Write }
{
    loop {
        match tell_next(alloc, reader, sessions, desk, trail) {
            Ok(true) => {}
            Ok(false) => return Ok(()),
            Err(fault) => return Err(fault),
        }
    }
}

// Takes and tells the first frame that stands in the reader: whether there was one.
fn tell_next(
    alloc: Global,
    reader: &mut Reader,
    sessions: &mut Sessions,
    desk: &mut Unrecorded,
    trail: &mut Trail,
) -> Result<bool, ReplayFault>
    requires step { IsInStep reader.old trail.old }
    requires within { offset_of trail.old + length reader.old.unread < 2 ^ 63 }
    ensures ok { IfOk result (λ told. TellsNext told reader.old (telling_of trail.old sessions.old desk.old)
        reader.new (telling_of trail.new sessions.new desk.new)) }
    ensures err { IfErr result (StoppedOn (taking_of sessions.old desk.old) reader.old.unread desk.new) }
    ensures no_write { result ≢ Err ReplayFault.Write }
{
    match next_noted(alloc, reader, sessions, desk) {
        Ok(noted) => tell(alloc, trail, reader.skipped(), noted),
        Err(fault) => Err(fault),
    }
}

// Tells what is passed over by now, and then a message, where there is one: whether there is.
fn tell(
    alloc: Global,
    trail: &mut Trail,
    skipped: u64,
    noted: Option<Noted>,
) -> Result<bool, ReplayFault>
    requires more { trail.old.skipped + trail.old.passed ≤ skipped }
    requires within { offset_of trail.old + untold skipped trail.old + size_of noted < 2 ^ 63 }
    ensures trail { OnOk result (trail.new ≡ behind_both (untold skipped trail.old) noted trail.old) }
    ensures some { IfOk result (λ told. told ≡ is_some noted) }
    ensures memory { IfErr result (λ fault. fault ≡ ReplayFault.NoMemory) }
{
    trail.pass(skipped);
    let Some(noted) = noted else {
        return Ok(false);
    };
    match trail.put(alloc, &noted) {
        Ok(()) => Ok(true),
        Err(_) => Err(ReplayFault::NoMemory),
    }
}

// Takes the first frame that stands in the reader, if there is one.
fn next_noted(
    alloc: Global,
    reader: &mut Reader,
    sessions: &mut Sessions,
    desk: &mut Unrecorded,
) -> Result<Option<Noted>, ReplayFault>
    ensures read { IfOk result (λ noted. Notes noted reader.old (taking_of sessions.old desk.old)
        reader.new (taking_of sessions.new desk.new)) }
    ensures err { IfErr result (StoppedOn (taking_of sessions.old desk.old) reader.old.unread desk.new) }
    ensures no_write { result ≢ Err ReplayFault.Write }
{
    match reader.next()? {
        Some(frame) => match take_noted(alloc, sessions, desk, &frame) {
            Ok(noted) => Ok(Some(noted)),
            Err(fault) => Err(fault),
        },
        None => Ok(None),
    }
}

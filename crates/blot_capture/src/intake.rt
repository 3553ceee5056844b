//! The frames of a byte stream, taken piece by piece.
ghost use Rattle.std.specs.Prelude.{◌≡◌, ◌≢◌, [], ◌++◌, Err, OnOk, IfErr};
ghost use Rattle.blot_tag.specs.Views.{text_of};
ghost use Rattle.blot_tag.specs.Walking.{frames_of};
ghost use Rattle.blot_capture.specs.Capture.{sessions_behind, commands_in};
ghost use Rattle.blot_capture.specs.Replay.{submitted, CameOn, Stopped, StoppedOn};
ghost use Rattle.blot_capture.specs.Sessions.{sessions_of, taking_of};

use crate::sessions::Sessions;
use blot_desk::TakesCommands;
use blot_stream::ReplayFault;
use blot_tag::{Frame, Reader};
use std::alloc::Global;

/// Takes the frames of a piece of the stream, with what the reader holds of the pieces before. What is left there holds no
/// frame. Whatever comes after it, the commands that were taken and those to come are those of the whole.
pub(crate) fn take_piece<D: TakesCommands>(
    alloc: Global,
    reader: &mut Reader,
    sessions: &mut Sessions,
    desk: &mut D,
    piece: &[u8],
) -> Result<(), ReplayFault>
    ensures drained { OnOk result (frames_of reader.new.unread ≡ []) }
    ensures came { OnOk result (CameOn (taking_of sessions.old (D.desk_of desk.old)) (reader.old.unread ++ piece.now)
        (taking_of sessions.new (D.desk_of desk.new)) reader.new.unread) }
    ensures err { IfErr result (StoppedOn (taking_of sessions.old (D.desk_of desk.old)) (reader.old.unread ++ piece.now) (D.desk_of desk.new)) }
    ensures no_write { result ≢ Err ReplayFault.Write }
{
    match reader.feed(piece) {
        Ok(()) => take_frames(alloc, reader, sessions, desk),
        Err(_) => Err(ReplayFault::NoMemory),
    }
}

// Takes the frames that stand in the reader, in their order.
fn take_frames<D: TakesCommands>(
    alloc: Global,
    reader: &mut Reader,
    sessions: &mut Sessions,
    desk: &mut D,
) -> Result<(), ReplayFault>
    ensures drained { OnOk result (frames_of reader.new.unread ≡ []) }
    ensures came { OnOk result (CameOn (taking_of sessions.old (D.desk_of desk.old)) reader.old.unread
        (taking_of sessions.new (D.desk_of desk.new)) reader.new.unread) }
    ensures err { IfErr result (StoppedOn (taking_of sessions.old (D.desk_of desk.old)) reader.old.unread (D.desk_of desk.new)) }
    ensures no_write { result ≢ Err ReplayFault.Write }
{
    while let Some(frame) = reader.next()? {
        match take_frame(alloc, sessions, desk, &frame) {
            Ok(()) => {}
            Err(fault) => return Err(fault),
        }
    }
    Ok(())
}

// Takes a frame, whatever becomes of it.
fn take_frame<D: TakesCommands>(
    alloc: Global,
    sessions: &mut Sessions,
    desk: &mut D,
    frame: &Frame,
) -> Result<(), ReplayFault>
    ensures sessions { OnOk result (sessions_of sessions.new ≡ sessions_behind (sessions_of sessions.old) (text_of frame.now)) }
    ensures desk { OnOk result (D.desk_of desk.new ≡ submitted (D.desk_of desk.old) (commands_in (sessions_of sessions.old) (text_of frame.now))) }
    ensures err { IfErr result (Stopped (D.desk_of desk.old) (D.desk_of desk.new) (commands_in (sessions_of sessions.old) (text_of frame.now))) }
    ensures no_write { result ≢ Err ReplayFault.Write }
{
    match sessions.take(alloc, frame, desk) {
        Ok(_) => Ok(()),
        Err(fault) => Err(fault),
    }
}

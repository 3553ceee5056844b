//! A frame of a capture at the session of its sender, and what a trail tells of it.
ghost use Rattle.std.specs.Prelude.{◌≡◌, ◌≢◌, Err, IfErr, IfOk, OnOk};
ghost use Rattle.blot_tag.specs.Views.{text_of};
ghost use Rattle.blot_session.specs.Runs.{said_by};
ghost use Rattle.blot_capture.specs.Capture.{commands_in, sessions_behind};
ghost use Rattle.blot_capture.specs.Handling.{became_by};
ghost use Rattle.blot_capture.specs.Replay.{submitted, Stopped};
ghost use Rattle.blot_capture.specs.Sessions.{sessions_of, taking_of};
ghost use Rattle.blot_trail.specs.Making.{IsTurnOf, line_at};
ghost use Rattle.blot_trail.specs.TrailText.{IsToldOf};

use crate::trail::Noted;
use blot_capture::{Handled, Sessions};
use blot_desk::Unrecorded;
use blot_fields::{FieldFault, Message, decode, is_out_of_memory};
use blot_session::Met;
use blot_stream::ReplayFault;
use blot_tag::Frame;
use std::alloc::Global;

/// Takes a frame, as `capture` does, and says what is told of it.
pub(crate) fn take_noted(
    alloc: Global,
    sessions: &mut Sessions,
    desk: &mut Unrecorded,
    frame: &Frame,
) -> Result<Noted, ReplayFault>
    ensures sessions { OnOk result (sessions_of sessions.new ≡ sessions_behind (sessions_of sessions.old) (text_of frame.now)) }
    ensures desk { OnOk result (desk.new ≡ submitted desk.old (commands_in (sessions_of sessions.old) (text_of frame.now))) }
    ensures noted { IfOk result (λ noted. noted ≡ line_at (taking_of sessions.old desk.old) (text_of frame.now)) }
    ensures err { IfErr result (Stopped desk.old desk.new (commands_in (sessions_of sessions.old) (text_of frame.now))) }
    ensures no_write { result ≢ Err ReplayFault.Write }
{
    let said = decode(alloc, frame);
    if is_out_of_memory(&said) {
        return Err(ReplayFault::NoMemory);
    }
    let Ok(met) = sessions.meets(frame, &said) else {
        return Err(ReplayFault::NoMemory);
    };
    match sessions.take(alloc, frame, desk) {
        Ok(handled) => note(alloc, frame, &said, met, &handled),
        Err(fault) => Err(fault),
    }
}

// What is told of a frame that was taken.
fn note(
    alloc: Global,
    frame: &Frame,
    said: &Result<Message, FieldFault>,
    met: Option<Met>,
    handled: &Handled,
) -> Result<Noted, ReplayFault>
    requires said { said.now ≡ said_by (text_of frame.now) }
    requires told { IsToldOf (became_by met handled.now) }
    ensures noted { IfOk result (IsTurnOf (text_of frame.now) met handled.now) }
    ensures memory { IfErr result (λ fault. fault ≡ ReplayFault.NoMemory) }
{
    match Noted::new(alloc, frame, said, &handled.became(met), handled.wanted()) {
        Ok(noted) => Ok(noted),
        Err(_) => Err(ReplayFault::NoMemory),
    }
}

//! The sessions of a capture's peers.
ghost use Rattle.std.specs.Prelude.{◌≡◌, ◌≢◌, All, Err, IfOk, IfErr, OnOk, MatchOption, None, option_and_then};
ghost use Rattle.std.specs.List.{IsDistinct};
ghost use Rattle.blot_tag.specs.Views.{text_of};
ghost use Rattle.blot_types.specs.Keys.{same_text};
ghost use Rattle.blot_fields.specs.First.{text_in};
ghost use Rattle.blot_fields.specs.Numbers.{HasNumber};
ghost use Rattle.blot_session.specs.Runs.{said_by};
ghost use Rattle.blot_session.specs.States.{IsIdle};
ghost use Rattle.blot_capture.specs.Capture.{first_sessions, sessions_behind, commands_in};
ghost use Rattle.blot_capture.specs.Handling.{IsHandledIn, met_in};
ghost use Rattle.blot_capture.specs.Replay.{submitted, Stopped};
ghost use Rattle.blot_capture.specs.Sessions.{session_among, session_in, sessions_of, taking_of, IsAt, IsPlaceFor, IsSenderAt};
ghost use Rattle.blot_capture.specs.Trace.{session_for};

use crate::handled::Handled;
use crate::handling::take_frame;
use crate::moment::sending_of;
use blot_desk::TakesCommands;
use blot_fields::{FieldFault, Message, first_value};
use blot_session::{Met, Session};
use blot_slots::SlotTable;
use blot_stream::ReplayFault;
use blot_tag::Frame;
use blot_types::Text64;
use std::alloc::{AllocError as NoMemory, Global};
use std::marker::Model;

/// The sessions of a capture's peers. A session is checked out by its peer's first frame, and stays out to the end of the
/// capture. A contract sees the session of each peer.
#[derive(Drop)]
pub struct Sessions {
    table: SlotTable,
    out: Vec<Session>,
}

impl Model for Sessions {
    ghost use Rattle.std.specs.Prelude.{All};
    ghost use Rattle.blot_session.specs.States.{IsIdle};
    ghost use Rattle.blot_capture.specs.Sessions.{Parts};

    ghost Value = { Parts };

    ghost view = { λ sessions. record { out = sessions.out.items; table = sessions.table } };

    ghost invariant = { λ sessions. All IsIdle sessions.out.items };
}

impl Sessions {
    /// The sessions of peers that were never heard of.
    pub fn new(alloc: Global, own: Text64, peers: &[Text64]) -> Result<Sessions, NoMemory>
        requires { IsDistinct same_text peers.now }
        ensures { IfOk result (λ sessions. sessions_of sessions ≡ first_sessions own peers.now) }
    {
        match SlotTable::new(alloc, own, peers) {
            Ok(table) => Ok(Sessions {
                table,
                out: Vec::new(alloc),
            }),
            Err(_) => Err(NoMemory),
        }
    }

    /// What the session of a frame's sender would make of the frame, if it came now; the frame says this. None where the sender has no
    /// session. Each session stays as it was. An error is out of memory, and what the sessions are then isn't said.
    pub fn meets(
        &mut self,
        frame: &Frame,
        said: &Result<Message, FieldFault>,
    ) -> Result<Option<Met>, NoMemory>
        requires said { said.now ≡ said_by (text_of frame.now) }
        requires number { HasNumber said.now }
        ensures same { OnOk result (sessions_of self.new ≡ sessions_of self.old) }
        ensures met { IfOk result (λ met. met ≡ met_in (sessions_of self.old) (text_of frame.now)) }
    {
        match place_for(&mut self.table, &mut self.out, frame)? {
            Some(place) => Ok(Some(self.out[place].meets(said, sending_of(frame)))),
            None => Ok(None),
        }
    }

    /// Gives a frame to the session of its sender, and what that delivers to the desk. The frames of others are passed over.
    pub fn take<D: TakesCommands>(
        &mut self,
        alloc: Global,
        frame: &Frame,
        desk: &mut D,
    ) -> Result<Handled, ReplayFault>
        ensures sessions { OnOk result (sessions_of self.new ≡ sessions_behind (sessions_of self.old) (text_of frame.now)) }
        ensures desk { OnOk result (D.desk_of desk.new ≡ submitted (D.desk_of desk.old) (commands_in (sessions_of self.old) (text_of frame.now))) }
        ensures handled { IfOk result (IsHandledIn (taking_of self.old (D.desk_of desk.old)) (text_of frame.now)) }
        ensures err { IfErr result (Stopped (D.desk_of desk.old) (D.desk_of desk.new) (commands_in (sessions_of self.old) (text_of frame.now))) }
        ensures no_write { result ≢ Err ReplayFault.Write }
    {
        match place_for(&mut self.table, &mut self.out, frame) {
            Ok(Some(place)) => take_frame(alloc, &mut self.out[place], frame, desk),
            Ok(None) => Ok(Handled::Passed),
            Err(_) => Err(ReplayFault::NoMemory),
        }
    }
}

// The place of the session of a frame's sender among those that are out. None where the sender has none.
fn place_for(
    table: &mut SlotTable,
    out: &mut Vec<Session>,
    frame: &Frame,
) -> Result<Option<usize>, NoMemory>
    requires { All IsIdle out.old.items }
    ensures same { OnOk result (session_in out.new.items table.new ≡ session_in out.old.items table.old) }
    ensures idle { All IsIdle out.new.items }
    ensures place { IfOk result (λ place. MatchOption place (session_for (session_in out.new.items table.new) (text_of frame.now) ≡ None)
        (IsPlaceFor (text_of frame.now) out.new.items)) }
{
    match first_value(frame, 49) {
        Some(sender) => place_of(table, out, sender),
        None => Ok(None),
    }
}

// The place of the session of the peer with this CompID among those that are out; it is checked out where it was in. None where there is
// no such peer, or it has none.
fn place_of(
    table: &mut SlotTable,
    out: &mut Vec<Session>,
    sender: &[u8],
) -> Result<Option<usize>, NoMemory>
    requires { All IsIdle out.old.items }
    ensures same { OnOk result (session_in out.new.items table.new ≡ session_in out.old.items table.old) }
    ensures idle { All IsIdle out.new.items }
    ensures place { IfOk result (λ place. MatchOption place (option_and_then (session_in out.new.items table.new) (text_in sender.now) ≡ None)
        (IsSenderAt sender.now out.new.items)) }
{
    if let Some(place) = place_out(out, sender) {
        return Ok(Some(place));
    }
    match Text64::read(sender) {
        Some(peer) => check_out(table, out, &peer),
        None => Ok(None),
    }
}

// The place of a peer's session, which isn't out: it is checked out, where it is in. None where the peer has none.
fn check_out(
    table: &mut SlotTable,
    out: &mut Vec<Session>,
    peer: &Text64,
) -> Result<Option<usize>, NoMemory>
    requires idle { All IsIdle out.old.items }
    requires none { session_among peer.now out.old.items ≡ None }
    ensures same { OnOk result (session_in out.new.items table.new ≡ session_in out.old.items table.old) }
    ensures idle { All IsIdle out.new.items }
    ensures place { IfOk result (λ place. MatchOption place (session_in out.new.items table.new peer.now ≡ None) (IsAt peer.now out.new.items)) }
{
    let Ok(session) = table.check_out(peer) else {
        return Ok(None);
    };
    let place = out.len();
    match out.push(session) {
        Ok(()) => Ok(Some(place)),
        Err(_) => Err(NoMemory),
    }
}

// The first place among those that are out of the session of the peer with this CompID. Neither is copied.
fn place_out(out: &[Session], sender: &[u8]) -> Option<usize>
    ensures { MatchOption result (session_among sender.now out.now ≡ None) (IsSenderAt sender.now out.now) }
{
    for (place, session) in out.iter().enumerate() {
        if session.is_of(sender) {
            return Some(place);
        }
    }
    None
}

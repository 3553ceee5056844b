//! A frame at the session of its sender, and what that delivers at the desk.
ghost use Rattle.std.specs.Prelude.{◌≡◌, ◌≢◌, [], ◌∷◌, true, Ok, Err, Some, OnOk, IfOk, IfErr};
ghost use Rattle.blot_tag.specs.Fields.{fields_of};
ghost use Rattle.blot_tag.specs.Views.{text_of};
ghost use Rattle.blot_fields.specs.First.{IsSentAt};
ghost use Rattle.blot_fields.specs.Numbers.{IsNumbered};
ghost use Rattle.blot_session.specs.Calls.{Awaits, DeliversAlone, on_reply};
ghost use Rattle.blot_session.specs.declared.met.Met.{Met};
ghost use Rattle.blot_session.specs.declared.replies.SeenReply.TheVariants.{Accepted};
ghost use Rattle.blot_session.specs.Runs.{behind_calls, said_by};
ghost use Rattle.blot_session.specs.States.{IsIdle, IsAwaiting};
ghost use Rattle.blot_desk.specs.declared.event.Event.TheVariants.{Submit};
ghost use Rattle.blot_desk.specs.Desk.{recorded_of};
ghost use Rattle.blot_gateway.specs.Serving.{seen_reply};
ghost use Rattle.blot_capture.specs.Capture.{behind_reply, behind_text, reply_calls, waiting_calls, taken_by};
ghost use Rattle.blot_capture.specs.Handling.{IsHandled, IsHandledBy, IsReplied, delivered_in, report_actions, is_fill_said};
ghost use Rattle.blot_capture.specs.Replay.{submitted, Stopped, fault_of};
ghost use Rattle.blot_capture.specs.Trace.{actions_after, became_of, on_told, reply_to};

use crate::handled::Handled;
use crate::moment::sending_by;
use blot_desk::{DeskFault, TakesCommands};
use blot_fields::{Body, FieldFault, Message, command_of_report, decode, is_out_of_memory};
use blot_gateway::seen_reply;
use blot_session::{Action, NotTaken, Phase, SeenReply, Session, delivered};
use blot_stream::ReplayFault;
use blot_tag::Frame;
use blot_time::Moment;
use blot_types::Command;
use std::alloc::Global;

/// Gives a frame to its session, and what the session delivers to the desk. If the session is closed after that, it waits for
/// its next Logon.
pub(crate) fn take_frame<D: TakesCommands>(
    alloc: Global,
    session: &mut Session,
    frame: &Frame,
    desk: &mut D,
) -> Result<Handled, ReplayFault>
    requires { IsIdle session.old }
    ensures session { OnOk result (session.new ≡ behind_text session.old (text_of frame.now)) }
    ensures peer { session.new.peer ≡ session.old.peer }
    ensures idle { IsIdle session.new }
    ensures desk { OnOk result (D.desk_of desk.new ≡ submitted (D.desk_of desk.old) (taken_by session.old (text_of frame.now))) }
    ensures handled { IfOk result (IsHandledBy (Some session.old) (D.desk_of desk.old) (text_of frame.now)) }
    ensures err { IfErr result (Stopped (D.desk_of desk.old) (D.desk_of desk.new) (taken_by session.old (text_of frame.now))) }
    ensures no_write { result ≢ Err ReplayFault.Write }
{
    let said = decode(alloc, frame);
    let taken = if is_out_of_memory(&said) {
        Err(ReplayFault::NoMemory)
    } else {
        take_said(alloc, session, frame, &said, desk)
    };
    drop(said);
    if taken.is_ok() {
        wait_where_closed(session);
    }
    taken
}

// The same, up to the reply to what is delivered, where the frame says this. Nearly every frame is a report in its turn, whose command is
// made where it is submitted.
fn take_said<D: TakesCommands>(
    alloc: Global,
    session: &mut Session,
    frame: &Frame,
    said: &Result<Message, FieldFault>,
    desk: &mut D,
) -> Result<Handled, ReplayFault>
    requires idle { IsIdle session.old }
    requires said { said.now ≡ said_by (text_of frame.now) }
    requires numbers { IsNumbered said.now }
    requires sent { IfOk said.now (IsSentAt (fields_of (text_of frame.now))) }
    ensures session { OnOk result (session.new ≡ behind_reply session.old (text_of frame.now)) }
    ensures peer { session.new.peer ≡ session.old.peer }
    ensures idle { IsIdle session.new }
    ensures desk { OnOk result (D.desk_of desk.new ≡ submitted (D.desk_of desk.old) (taken_by session.old (text_of frame.now))) }
    ensures handled { IfOk result (IsHandledBy (Some session.old) (D.desk_of desk.old) (text_of frame.now)) }
    ensures err { IfErr result (Stopped (D.desk_of desk.old) (D.desk_of desk.new) (taken_by session.old (text_of frame.now))) }
    ensures no_write { result ≢ Err ReplayFault.Write }
{
    let now = sending_by(said, frame);
    if session.on_report(said, now) {
        return submit_report(alloc, session, said, now, desk);
    }
    let Ok(actions) = session.on_said(alloc, said, now) else {
        return Err(ReplayFault::NoMemory);
    };
    take_delivered(alloc, session, actions, now, desk)
}

// Submits the command of a report that the session took.
fn submit_report<D: TakesCommands>(
    alloc: Global,
    session: &mut Session,
    said: &Result<Message, FieldFault>,
    now: Moment,
    desk: &mut D,
) -> Result<Handled, ReplayFault>
    requires awaiting { IsAwaiting session.old }
    requires fill { is_fill_said said.now ≡ true }
    ensures session { OnOk result (session.new ≡ behind_calls session.old (reply_calls session.old now)) }
    ensures peer { session.new.peer ≡ session.old.peer }
    ensures idle { IsIdle session.new }
    ensures desk { OnOk result (D.desk_of desk.new ≡ submitted (D.desk_of desk.old) (delivered_in (report_actions said.now session.old.peer))) }
    ensures handled { IfOk result (λ handled. (met : Met) → IsHandled (became_of met (D.desk_of desk.old) (delivered_in (report_actions said.now session.old.peer)))
        (actions_after session.old (D.desk_of desk.old) now (report_actions said.now session.old.peer) (delivered_in (report_actions said.now session.old.peer)))
        (Some met) handled) }
    ensures err { IfErr result (Stopped (D.desk_of desk.old) (D.desk_of desk.new) (delivered_in (report_actions said.now session.old.peer))) }
    ensures no_write { result ≢ Err ReplayFault.Write }
{
    let Ok(message) = said else { unreachable!() };
    let Body::Report(report) = &message.body else {
        unreachable!()
    };
    match &command_of_report(report, message.head.sending, session.peer()) {
        Some(command) => submit(alloc, session, command, now, desk),
        None => unreachable!(),
    }
}

// Submits what these actions deliver, if they deliver a command.
fn take_delivered<D: TakesCommands>(
    alloc: Global,
    session: &mut Session,
    actions: Vec<Action>,
    now: Moment,
    desk: &mut D,
) -> Result<Handled, ReplayFault>
    requires awaits { Awaits session.old actions.items }
    requires alone { DeliversAlone actions.items }
    ensures session { OnOk result (session.new ≡ behind_calls session.old (reply_calls session.old now)) }
    ensures peer { session.new.peer ≡ session.old.peer }
    ensures idle { IsIdle session.new }
    ensures desk { OnOk result (D.desk_of desk.new ≡ submitted (D.desk_of desk.old) (delivered_in actions.items)) }
    ensures handled { IfOk result (λ handled. (met : Met) → IsHandled (became_of met (D.desk_of desk.old) (delivered_in actions.items))
        (actions_after session.old (D.desk_of desk.old) now actions.items (delivered_in actions.items)) (Some met) handled) }
    ensures err { IfErr result (Stopped (D.desk_of desk.old) (D.desk_of desk.new) (delivered_in actions.items)) }
    ensures no_write { result ≢ Err ReplayFault.Write }
{
    if !session.is_awaiting() {
        return Ok(Handled::Met(actions));
    }
    match delivered(actions) {
        Some(command) => {
            let handled = submit(alloc, session, &command, now, desk);
            drop(command);
            handled
        }
        None => unreachable!(),
    }
}

// Submits a delivered command to the desk, and tells the session the reply, or that the command wasn't taken.
fn submit<D: TakesCommands>(
    alloc: Global,
    session: &mut Session,
    command: &Command,
    now: Moment,
    desk: &mut D,
) -> Result<Handled, ReplayFault>
    requires { IsAwaiting session.old }
    ensures session { OnOk result (session.new ≡ (on_reply session.old (Ok Accepted) now).state) }
    ensures peer { session.new.peer ≡ session.old.peer }
    ensures idle { IsIdle session.new }
    ensures desk { OnOk result (D.desk_of desk.new ≡ recorded_of (D.desk_of desk.old) (Submit command.now)) }
    ensures handled { IfOk result (IsReplied (reply_to (D.desk_of desk.old) command.now) (on_told session.old (reply_to (D.desk_of desk.old) command.now) now).actions) }
    ensures err { IfErr result (Stopped (D.desk_of desk.old) (D.desk_of desk.new) (command.now ∷ [])) }
    ensures no_write { result ≢ Err ReplayFault.Write }
{
    let answer = desk.submit(command);
    let told = tell(alloc, session, seen_reply(&answer), now);
    match answer {
        Ok(reply) => Ok(Handled::Replied(reply, told?)),
        Err(fault) => {
            drop(told);
            Err(fault_of(fault))
        }
    }
}

// Tells a session what became of the command that it delivered.
fn tell(
    alloc: Global,
    session: &mut Session,
    seen: Result<SeenReply, NotTaken>,
    now: Moment,
) -> Result<Vec<Action>, ReplayFault>
    requires { IsAwaiting session.old }
    ensures session { OnOk result (session.new ≡ (on_reply session.old seen now).state) }
    ensures fault { IfErr result (λ fault. fault ≡ ReplayFault.NoMemory) }
    ensures peer { session.new.peer ≡ session.old.peer }
    ensures idle { IsIdle session.new }
    ensures wanted { IfOk result (λ list. list.items ≡ (on_reply session.old seen now).actions) }
{
    match session.on_reply(alloc, seen, now) {
        Ok(wanted) => Ok(wanted),
        Err(_) => Err(ReplayFault::NoMemory),
    }
}

// A fault of a step, as a capture's: the desk is full, or memory ran out. No step answers Unsettled or Broken.
fn fault_of(fault: DeskFault) -> ReplayFault
    ensures { result ≡ fault_of fault }
{
    match fault {
        DeskFault::Full => ReplayFault::Full,
        DeskFault::NoMemory | DeskFault::Broken | DeskFault::Unsettled => ReplayFault::NoMemory,
    }
}

// A session that is closed waits for its next Logon.
fn wait_where_closed(session: &mut Session)
    ensures session { session.new ≡ behind_calls session.old (waiting_calls session.old) }
    ensures peer { session.new.peer ≡ session.old.peer }
    ensures idle { IsIdle session.old → IsIdle session.new }
{
    if matches!(session.phase(), Phase::Closed) {
        session.wait_again();
    }
}

//! What is due to a session: its call, and what that comes to at the wire and at the sink.
ghost use Rattle.std.specs.Prelude.{◌≡◌, ◌≤◌, [], ◌∷◌, Ok, Err, Some, None, IfOk, IfErr, IfSome, OnOk, OnErr, is_some, true};
ghost use Rattle.blot_fields.specs.Bringing.{brought};
ghost use Rattle.blot_tag.specs.Views.{text_of};
ghost use Rattle.blot_session.specs.Calls.{Awaits, DeliversAlone, Gives, on_frame};
ghost use Rattle.blot_session.specs.Runs.{DeliversOwn, said_by};
ghost use Rattle.blot_session.specs.Runs.Call.{Frame as FrameCall, Reply as ReplyCall, Stop as StopCall, Tick};
ghost use Rattle.blot_session.specs.States.{awaited_of, closed, IsIdle, IsAwaiting};
ghost use Rattle.blot_gateway.specs.Progress.{CountsStop, Handles, HandlesLast};
ghost use Rattle.blot_gateway.specs.Sending.{Called, Comes, ComesLast, Halted, Submitted, SubmittedLast};
ghost use Rattle.blot_gateway.specs.Hearing.{heard, is_renumbered, word_in};
ghost use Rattle.blot_gateway.specs.Serving.{parties, seen_reply};
ghost use Rattle.blot_gateway.specs.Serving.Due.{Came};
ghost use Rattle.blot_gateway.specs.Wires.{StepByStep};

use crate::ended::Stop;
use crate::writing::carry_out;
use crate::{Clock, FrameSink, Heard, Parties, Wire};
use blot_desk::{DeskFault, Reply};
use blot_fields::{decode, is_out_of_memory};
use blot_session::{Action, Met, NotTaken, Phase, SeenReply, Session, delivered};
use blot_tag::Frame;
use blot_time::Moment;
use blot_types::Command;
use std::alloc::{AllocError as NoMemory, Global};

impl<W: Wire, C: Clock, S: FrameSink> Parties<W, C, S> {
    /// A frame is due: it comes to the session. What the session delivers goes to the sink, and the session is told the answer.
    pub(crate) fn take_frame(&mut self, alloc: Global, frame: &Frame) -> Result<(), Stop>
        requires { IsIdle self.old.session }
        ensures ok { OnOk result (Handles W.does C.ticks S.takes self.old (Came (text_of frame.now) ∷ []) self.new) }
        ensures err { IfErr result (HandlesLast W.does C.ticks S.takes self.old (Came (text_of frame.now) ∷ []) self.new) }
        ensures idle { IsIdle self.new.session }
        ensures failures { W.failures self.old.wire ≤ W.failures self.new.wire }
        ensures failed { IfErr result (CountsStop (W.failures self.old.wire) (W.failures self.new.wire)) }
    {
        match give_frame(
            alloc,
            &mut self.wire,
            &mut self.clock,
            &mut self.sink,
            &mut self.session,
            frame,
        ) {
            Ok(Some(command)) => self.submit(alloc, frame, command),
            Ok(None) => Ok(()),
            Err(stop) => Err(stop),
        }
    }

    // Hands a command to the sink that this frame brought, and tells the session the answer.
    fn submit(&mut self, alloc: Global, frame: &Frame, command: Command) -> Result<(), Stop>
        requires awaiting { IsAwaiting self.old.session }
        requires brought { brought (text_of frame.now) ≡ Some command }
        ensures ok { OnOk result (Submitted W.does C.ticks S.takes command self.old self.new) }
        ensures err { IfErr result (SubmittedLast W.does C.ticks S.takes command self.old self.new) }
        ensures idle { IsIdle self.new.session }
        ensures failures { W.failures self.old.wire ≤ W.failures self.new.wire }
        ensures failed { IfErr result (CountsStop (W.failures self.old.wire) (W.failures self.new.wire)) }
    {
        let answer = self.sink.take(frame, command);
        tell(
            alloc,
            &mut self.wire,
            &mut self.clock,
            &mut self.session,
            seen_reply(&answer),
        )
    }
}

/// A moment is due.
pub(crate) fn pass_moment<W: Wire, C: Clock>(
    alloc: Global,
    wire: &mut W,
    clock: &mut C,
    session: &mut Session,
) -> Result<(), Stop>
    requires { IsIdle session.old }
    ensures ok { OnOk result (Called W.does C.ticks None Tick wire.old clock.old session.old wire.new clock.new session.new) }
    ensures err { IfErr result (Halted W.does C.ticks Tick wire.old clock.old session.old wire.new clock.new session.new) }
    ensures idle { IsIdle session.new }
    ensures failures { W.failures wire.old ≤ W.failures wire.new }
    ensures failed { IfErr result (CountsStop (W.failures wire.old) (W.failures wire.new)) }
{
    let now = clock.now();
    match session.on_tick(alloc, now) {
        Ok(actions) => carry_out(wire, &actions),
        Err(_) => Err(Stop::NoMemory),
    }
}

/// The day ends.
pub(crate) fn pass_stop<W: Wire, C: Clock>(
    alloc: Global,
    wire: &mut W,
    clock: &mut C,
    session: &mut Session,
) -> Result<(), Stop>
    requires { IsIdle session.old }
    ensures ok { OnOk result (Called W.does C.ticks None StopCall wire.old clock.old session.old wire.new clock.new session.new) }
    ensures err { IfErr result (Halted W.does C.ticks StopCall wire.old clock.old session.old wire.new clock.new session.new) }
    ensures idle { IsIdle session.new }
    ensures failures { W.failures wire.old ≤ W.failures wire.new }
    ensures failed { IfErr result (CountsStop (W.failures wire.old) (W.failures wire.new)) }
{
    let now = clock.now();
    match session.on_stop(alloc, now) {
        Ok(actions) => carry_out(wire, &actions),
        Err(_) => Err(Stop::NoMemory),
    }
}

// What a session was when a frame came to it, and what becomes of the frame.
#[derive(Clone, Copy)]
pub(crate) struct Before {
    met: Met,
    phase: Phase,
    expected: u64,
    next: u64,
}

// A frame comes to the session: the command that it delivers, if it delivers one. If not, the sink hears of it.
fn give_frame<W: Wire, C: Clock, S: FrameSink>(
    alloc: Global,
    wire: &mut W,
    clock: &mut C,
    sink: &mut S,
    session: &mut Session,
    frame: &Frame,
) -> Result<Option<Command>, Stop>
    requires { IsIdle session.old }
    ensures ok { IfOk result (λ command. Comes W.does C.ticks S.takes command (text_of frame.now) (parties wire.old clock.old sink.old session.old)
        (parties wire.new clock.new sink.new session.new)) }
    ensures brought { IfOk result (λ found. IfSome found (λ command. brought (text_of frame.now) ≡ Some command)) }
    ensures awaits { IfOk result (λ command. is_some command ≡ is_some (awaited_of session.new)) }
    ensures err { IfErr result (ComesLast W.does C.ticks S.takes (text_of frame.now) (parties wire.old clock.old sink.old session.old)
        (parties wire.new clock.new sink.new session.new)) }
    ensures idle { OnErr result (IsIdle session.new) }
    ensures failures { W.failures wire.old ≤ W.failures wire.new }
    ensures failed { IfErr result (CountsStop (W.failures wire.old) (W.failures wire.new)) }
{
    let now = clock.now();
    let Ok(actions) = decide(alloc, sink, session, frame, now) else {
        return Err(Stop::NoMemory);
    };
    match carry_out(wire, &actions) {
        Ok(()) => Ok(delivered(actions)),
        Err(stop) => Err(stop),
    }
}

// What a session does about a frame. Where no command is delivered, the sink hears of it. An error is out of memory.
fn decide<S: FrameSink>(
    alloc: Global,
    sink: &mut S,
    session: &mut Session,
    frame: &Frame,
    now: Moment,
) -> Result<Vec<Action>, NoMemory>
    requires { IsIdle session.old }
    ensures ok { IfOk result (Gives (on_frame session.old (said_by (text_of frame.now)) now) session.new) }
    ensures err { OnErr result (session.new ≡ closed session.old) }
    ensures awaits { IfOk result (λ actions. Awaits session.new actions.items) }
    ensures alone { IfOk result (λ actions. DeliversAlone actions.items) }
    ensures own { IfOk result (λ actions. DeliversOwn (text_of frame.now) actions.items) }
    ensures heard { OnOk result (StepByStep S.takes sink.old (word_in session.old (FrameCall (text_of frame.now) now true)) sink.new) }
    ensures unheard { OnErr result (sink.new ≡ sink.old) }
{
    let said = decode(alloc, frame);
    if is_out_of_memory(&said) {
        session.on_close();
        return Err(NoMemory);
    }
    let before = Before {
        met: session.meets(&said, now),
        phase: session.phase(),
        expected: session.expected(),
        next: session.next(),
    };
    let actions = session.on_said(alloc, &said, now)?;
    if let Some(heard) = heard(&before, session) {
        sink.hear(frame, heard);
    }
    Ok(actions)
}

// What is heard of a frame that came to a session that was this: none where it brought a command, or where the session wasn't on and
// isn't.
fn heard(before: &Before, session: &Session) -> Option<Heard>
    ensures { result ≡ heard before.now session.now }
{
    if session.is_awaiting() || before.phase != Phase::On && session.phase() != Phase::On {
        return None;
    }
    let (expected, next) = (session.expected(), session.next());
    Some(Heard {
        met: before.met,
        is_renumbered: is_renumbered(before, session),
        expected,
        next,
    })
}

// Whether a session came on, expects another number than before, or sends a lower one next.
fn is_renumbered(before: &Before, session: &Session) -> bool
    ensures { result ≡ is_renumbered before.now session.now }
{
    before.phase != Phase::On
        || session.expected() != before.expected
        || session.next() < before.next
}

// Tells a session what became of the command that it delivered.
fn tell<W: Wire, C: Clock>(
    alloc: Global,
    wire: &mut W,
    clock: &mut C,
    session: &mut Session,
    seen: Result<SeenReply, NotTaken>,
) -> Result<(), Stop>
    requires { IsAwaiting session.old }
    ensures ok { OnOk result (Called W.does C.ticks None (ReplyCall seen) wire.old clock.old session.old wire.new clock.new session.new) }
    ensures err { IfErr result (Halted W.does C.ticks (ReplyCall seen) wire.old clock.old session.old wire.new clock.new session.new) }
    ensures idle { IsIdle session.new }
    ensures failures { W.failures wire.old ≤ W.failures wire.new }
    ensures failed { IfErr result (CountsStop (W.failures wire.old) (W.failures wire.new)) }
{
    let now = clock.now();
    match session.on_reply(alloc, seen, now) {
        Ok(actions) => carry_out(wire, &actions),
        Err(_) => Err(Stop::NoMemory),
    }
}

/// What a session is told of the answer to a command that it delivered.
pub fn seen_reply(answer: &Result<Reply, DeskFault>) -> Result<SeenReply, NotTaken>
    ensures { result ≡ seen_reply answer.now }
{
    match answer {
        Ok(Reply::Accepted(_)) => Ok(SeenReply::Accepted),
        Ok(Reply::Refused(refused)) => Ok(SeenReply::Refused(refused.number())),
        _ => Err(NotTaken),
    }
}

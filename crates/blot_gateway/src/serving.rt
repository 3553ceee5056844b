//! A session, served over a wire.
ghost use Rattle.std.specs.Prelude.{◌≡◌, ◌≢◌, ◌<◌, ◌≤◌, ◌++◌, None, length, map, IfErr, IfSome, IsErrAnd, IsOk, OnOk};
ghost use Rattle.blot_tag.specs.Walking.{frames_of, rest_of};
ghost use Rattle.blot_session.specs.States.{IsIdle};
ghost use Rattle.blot_gateway.specs.Endings.{ended_by};
ghost use Rattle.blot_gateway.specs.declared.ended.TheConstants.{READS_MAX};
ghost use Rattle.blot_gateway.specs.Progress.{CountsStop, Handles, HandlesLast, ServesRead, ServesReadLast, TakesFed, TakesFedLast};
ghost use Rattle.blot_gateway.specs.Serving.{EndsWithin, Served, IsCounted, due_behind, due_of, left_by, parties};
ghost use Rattle.blot_gateway.specs.Serving.Due.{Came};
ghost use Rattle.blot_gateway.specs.Stopping.{GoesOnFor};
ghost use Rattle.blot_gateway.specs.Wires.{hands};

use crate::calling::pass_moment;
use crate::ended::Stop;
use crate::lent::take_back;
use crate::watch::Unwatched;
use crate::{Clock, Ended, FrameSink, Parties, READS_MAX, Reading, Sink, Watch, Wire, empty_piece};
use blot_session::Session;
use blot_tag::Reader;
use std::alloc::Global;
use std::mem;

/// Serves a session over a wire, until one of them ends. The frames of the reader, and then of what the wire gives, come to the session in
/// their order, and a moment passes after each read. What the session sends is written. What it delivers goes to the sink, and the session
/// is told the answer.
///
/// Closed: the session ended the connection, for this reason. End: the wire is at its end. ReadFault, WriteFault: it failed,
/// and counted that. TooLong: 2^30 reads were made, and one more is needed. NoMemory: memory ran out. The session is closed then.
pub fn serve_session<W: Wire, C: Clock, S: Sink>(
    alloc: Global,
    wire: &mut W,
    clock: &mut C,
    sink: &mut S,
    reader: &mut Reader,
    session: &mut Session,
) -> Ended
    requires { IsIdle session.old }
    ensures served { Served W.does C.ticks (hands S.takes) READS_MAX result (parties wire.old clock.old sink.old session.old) reader.old.unread
        (parties wire.new clock.new sink.new session.new) }
    ensures counted { IsCounted (W.failures wire.old) (W.failures wire.new) result }
{
    serve_session_within(alloc, wire, clock, sink, reader, session, READS_MAX)
}

/// Serves a session over a wire as `serve_session` does, with this many reads at most: TooLong is answered where that many were made and
/// one more is needed.
pub fn serve_session_within<W: Wire, C: Clock, S: Sink>(
    alloc: Global,
    wire: &mut W,
    clock: &mut C,
    sink: &mut S,
    reader: &mut Reader,
    session: &mut Session,
    reads: u64,
) -> Ended
    requires { IsIdle session.old }
    ensures served { Served W.does C.ticks (hands S.takes) reads result (parties wire.old clock.old sink.old session.old) reader.old.unread
        (parties wire.new clock.new sink.new session.new) }
    ensures counted { IsCounted (W.failures wire.old) (W.failures wire.new) result }
{
    // The session is moved to the others, and a new one stands in its place meanwhile.
    let placeholder = Session::new(*session.peer(), *session.peer());
    let mut parties = Parties {
        wire,
        clock,
        sink,
        session: mem::replace(session, placeholder),
    };
    let ended = parties.serve(alloc, reader, reads);
    let Parties {
        wire,
        clock,
        sink,
        session: served,
    } = parties;
    take_back(wire);
    take_back(clock);
    take_back(sink);
    *session = served;
    ended
}

impl<W: Wire, C: Clock, S: FrameSink> Parties<W, C, S> {
    // Serves the session as `serve_session_within` does.
    fn serve(&mut self, alloc: Global, reader: &mut Reader, reads: u64) -> Ended
        requires { IsIdle self.old.session }
        ensures served { Served W.does C.ticks S.takes reads result self.old reader.old.unread self.new }
        ensures counted { IsCounted (W.failures self.old.wire) (W.failures self.new.wire) result }
    {
        match self.serve_watched(alloc, reader, reads, &Unwatched) {
            Some(ended) => {
                leave(&mut self.session, ended);
                ended
            }
            None => unreachable!(),
        }
    }

    /// Serves the session by what the reader holds, and then by this many reads of the wire at most: how it ended, or none where the watch
    /// ended it.
    pub(crate) fn serve_watched<D: Watch>(
        &mut self,
        alloc: Global,
        reader: &mut Reader,
        reads: u64,
        watch: &D,
    ) -> Option<Ended>
        requires { IsIdle self.old.session }
        ensures ends { IfSome result (λ end. EndsWithin W.does C.ticks S.takes reads end self.old (due_of reader.old.unread) self.new) }
        ensures goes_on { result ≡ None → GoesOnFor W.does C.ticks S.takes reads self.old (due_of reader.old.unread) self.new reader.new.unread }
        ensures ended { result ≡ None → D.may_end }
        ensures idle { IsIdle self.new.session }
        ensures failures { W.failures self.old.wire ≤ W.failures self.new.wire }
        ensures counted { IfSome result (IsCounted (W.failures self.old.wire) (W.failures self.new.wire)) }
    {
        match self.take_frames(alloc, reader) {
            Ok(()) => self.serve_reads(alloc, reader, reads, watch),
            Err(stop) => Some(stop.ended()),
        }
    }

    /// Serves the session by this many reads of the wire at most: how it ended, or none where the watch ended it, which is asked before
    /// each read.
    pub(crate) fn serve_reads<D: Watch>(
        &mut self,
        alloc: Global,
        reader: &mut Reader,
        reads: u64,
        watch: &D,
    ) -> Option<Ended>
        requires { IsIdle self.old.session }
        ensures ends { IfSome result (λ end. EndsWithin W.does C.ticks S.takes reads end self.old (due_behind reader.old.unread) self.new) }
        ensures goes_on { result ≡ None → GoesOnFor W.does C.ticks S.takes reads self.old (due_behind reader.old.unread) self.new reader.new.unread }
        ensures ended { result ≡ None → D.may_end }
        ensures idle { IsIdle self.new.session }
        ensures failures { W.failures self.old.wire ≤ W.failures self.new.wire }
        ensures counted { IfSome result (IsCounted (W.failures self.old.wire) (W.failures self.new.wire)) }
    {
        let Ok(mut buffer) = empty_piece(alloc) else {
            return Some(Ended::NoMemory);
        };
        for _ in 0..reads {
            if !watch.goes_on(self.session.expected()) {
                return None;
            }
            match self.serve_read(alloc, reader, &mut buffer) {
                Ok(()) => {}
                Err(ended) => return Some(ended),
            }
        }
        Some(Ended::TooLong)
    }

    // Serves the session by one read.
    fn serve_read(
        &mut self,
        alloc: Global,
        reader: &mut Reader,
        buffer: &mut [u8],
    ) -> Result<(), Ended>
        requires idle { IsIdle self.old.session }
        requires room { 0 < length buffer.old }
        ensures ok { OnOk result (ServesRead W.does C.ticks S.takes self.old reader.old.unread self.new reader.new.unread) }
        ensures err { IfErr result (ServesReadLast W.does C.ticks S.takes self.old reader.old.unread self.new) }
        ensures not_long { IfErr result (λ end. end ≢ Ended.TooLong) }
        ensures idle { IsIdle self.new.session }
        ensures failures { W.failures self.old.wire ≤ W.failures self.new.wire }
        ensures counted { IfErr result (IsCounted (W.failures self.old.wire) (W.failures self.new.wire)) }
    {
        match self.wire.read_some(buffer) {
            Reading::Got(count) => {
                let piece = &buffer[..count];
                end_of(self.take_piece(alloc, reader, piece))
            }
            Reading::Quiet => end_of(pass_moment(
                alloc,
                &mut self.wire,
                &mut self.clock,
                &mut self.session,
            )),
            Reading::End => Err(Ended::End),
            Reading::Fault => Err(Ended::ReadFault),
        }
    }

    // Takes the frames of a piece, with what the reader holds of the pieces before, and then a moment passes.
    fn take_piece(&mut self, alloc: Global, reader: &mut Reader, piece: &[u8]) -> Result<(), Stop>
        requires { IsIdle self.old.session }
        ensures ok { OnOk result (TakesFed W.does C.ticks S.takes self.old (reader.old.unread ++ piece.now) self.new reader.new.unread) }
        ensures err { IfErr result (TakesFedLast W.does C.ticks S.takes self.old (reader.old.unread ++ piece.now) self.new) }
        ensures idle { IsIdle self.new.session }
        ensures failures { W.failures self.old.wire ≤ W.failures self.new.wire }
        ensures failed { IfErr result (CountsStop (W.failures self.old.wire) (W.failures self.new.wire)) }
    {
        match reader.feed(piece) {
            Ok(()) => self.take_fed(alloc, reader),
            Err(_) => Err(Stop::NoMemory),
        }
    }

    // Takes the frames that stand in the reader, and then a moment passes.
    fn take_fed(&mut self, alloc: Global, reader: &mut Reader) -> Result<(), Stop>
        requires { IsIdle self.old.session }
        ensures ok { OnOk result (TakesFed W.does C.ticks S.takes self.old reader.old.unread self.new reader.new.unread) }
        ensures err { IfErr result (TakesFedLast W.does C.ticks S.takes self.old reader.old.unread self.new) }
        ensures idle { IsIdle self.new.session }
        ensures failures { W.failures self.old.wire ≤ W.failures self.new.wire }
        ensures failed { IfErr result (CountsStop (W.failures self.old.wire) (W.failures self.new.wire)) }
    {
        match self.take_frames(alloc, reader) {
            Ok(()) => pass_moment(alloc, &mut self.wire, &mut self.clock, &mut self.session),
            Err(stop) => Err(stop),
        }
    }

    // Takes the frames that stand in the reader, in their order.
    fn take_frames(&mut self, alloc: Global, reader: &mut Reader) -> Result<(), Stop>
        requires { IsIdle self.old.session }
        ensures ok { OnOk result (Handles W.does C.ticks S.takes self.old (map Came (frames_of reader.old.unread)) self.new) }
        ensures rest { OnOk result (reader.new.unread ≡ rest_of reader.old.unread) }
        ensures err { IfErr result (HandlesLast W.does C.ticks S.takes self.old (map Came (frames_of reader.old.unread)) self.new) }
        ensures idle { IsIdle self.new.session }
        ensures failures { W.failures self.old.wire ≤ W.failures self.new.wire }
        ensures failed { IfErr result (CountsStop (W.failures self.old.wire) (W.failures self.new.wire)) }
    {
        while let Some(frame) = reader.next()? {
            match self.take_frame(alloc, &frame) {
                Ok(()) => {}
                Err(stop) => return Err(stop),
            }
        }
        Ok(())
    }
}

/// Closes a session, unless it ended the connection itself.
pub(crate) fn leave(session: &mut Session, ended: Ended)
    requires { IsIdle session.old }
    ensures { session.new ≡ left_by ended session.old }
{
    match ended {
        Ended::Closed(_) => {}
        _ => session.on_close(),
    }
}

// The ending of what was stopped, if it was.
fn end_of(served: Result<(), Stop>) -> Result<(), Ended>
    ensures ok { OnOk result (IsOk served) }
    ensures err { IfErr result (λ end. IsErrAnd served (λ stop. end ≡ ended_by stop)) }
{
    match served {
        Ok(()) => Ok(()),
        Err(stop) => Err(stop.ended()),
    }
}

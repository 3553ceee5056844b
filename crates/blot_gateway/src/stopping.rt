//! A session that is served until it ends, or the day does.
ghost use Rattle.std.specs.Prelude.{◌≡◌, ◌≤◌, List};
ghost use Rattle.blot_session.specs.Runs.{Call, behind_calls};
ghost use Rattle.blot_session.specs.States.{IsIdle};
ghost use Rattle.blot_gateway.specs.KeptNumbers.{KeepsAllNumbers};
ghost use Rattle.blot_gateway.specs.Serving.{IsCounted};
ghost use Rattle.blot_gateway.specs.Stopping.{SaysGoodbye, ServedUntil, ToldStop, goodbye};

use crate::calling::pass_stop;
use crate::serving::leave;
use crate::watch::Unwatched;
use crate::{Clock, Ended, FrameSink, Parties, READS_MAX, Watch, Wire};
use blot_session::CloseReason;
use blot_tag::Reader;
use std::alloc::Global;

/// The most reads of a session after the end of the day.
pub const LAST_READS: u64 = 2;

impl<W: Wire, C: Clock, S: FrameSink> Parties<W, C, S> {
    /// Serves the session as `serve_session` does, until the watch ends the day. Then the session is told so, which sends a Logout if it is
    /// on, and it is served for two reads more.
    ///
    /// It ends as `serve_session` says; or, where it is still there after those two reads, as Closed with LoggedOut.
    pub fn serve_until<D: Watch>(&mut self, alloc: Global, reader: &mut Reader, watch: &D) -> Ended
        requires { IsIdle self.old.session }
        ensures served { ServedUntil W.does C.ticks S.takes D.may_end result self.old reader.old.unread self.new }

        // From any moment of the connection to the next reset, what the sink is told and what is sent give the session's two numbers.
        ensures numbers { (calls : List Call) → KeepsAllNumbers (behind_calls self.old.session calls) }
        ensures counted { IsCounted (W.failures self.old.wire) (W.failures self.new.wire) result }
    {
        match self.serve_watched(alloc, reader, READS_MAX, watch) {
            Some(ended) => {
                leave(&mut self.session, ended);
                ended
            }
            None => self.say_goodbye(alloc, reader),
        }
    }

    // The day ends: the session is told so, and is served for two reads more.
    fn say_goodbye(&mut self, alloc: Global, reader: &mut Reader) -> Ended
        requires { IsIdle self.old.session }
        ensures said { SaysGoodbye W.does C.ticks S.takes result self.old reader.old.unread self.new }
        ensures counted { IsCounted (W.failures self.old.wire) (W.failures self.new.wire) result }
    {
        let ended = self.serve_last(alloc, reader);
        leave(&mut self.session, ended);
        goodbye(ended)
    }

    // Tells the session that the day ends, and serves it for two reads more.
    fn serve_last(&mut self, alloc: Global, reader: &mut Reader) -> Ended
        requires { IsIdle self.old.session }
        ensures told { ToldStop W.does C.ticks S.takes result self.old reader.old.unread self.new }
        ensures idle { IsIdle self.new.session }
        ensures counted { IsCounted (W.failures self.old.wire) (W.failures self.new.wire) result }
    {
        match pass_stop(alloc, &mut self.wire, &mut self.clock, &mut self.session) {
            Ok(()) => match self.serve_reads(alloc, reader, LAST_READS, &Unwatched) {
                Some(ended) => ended,
                None => unreachable!(),
            },
            Err(stop) => stop.ended(),
        }
    }
}

// How a session ends that was told that the day ends: what is still there after its last reads is logged out.
fn goodbye(ended: Ended) -> Ended
    ensures { result ≡ goodbye ended }
{
    match ended {
        Ended::TooLong => Ended::Closed(CloseReason::LoggedOut),
        _ => ended,
    }
}

//! The session with one peer.
ghost use Rattle.std.specs.Prelude.{◌≡◌, ◌+◌, ◌≤◌, ℕ, List, true, false, is_some, IfOk, OnErr, IsTrue};
ghost use Rattle.std.specs.List.{list_all};
ghost use Rattle.blot_tag.specs.Views.{text_of};
ghost use Rattle.blot_types.specs.Keys.{same_text};
ghost use Rattle.blot_types.specs.Text.{is_text};
ghost use Rattle.blot_fields.specs.declared.TheConstants.{SEQUENCE_MAX};
ghost use Rattle.blot_fields.specs.Numbers.{HasNumber, IsNumbered};
ghost use Rattle.blot_session.specs.declared.state.State.{State};
ghost use Rattle.blot_session.specs.Calls.{Awaits, DeliversAlone, Gives, GivesCommand, command_said, on_frame, on_tick, on_stop, on_reply, row_of_reply};
ghost use Rattle.blot_session.specs.InTurn.{is_report_said};
ghost use Rattle.blot_session.specs.Met.{IsOfNumber, met_of};
ghost use Rattle.blot_session.specs.Runs.Call.{Frame as FrameCall, Reply as ReplyCall, Stop as StopCall, Tick as TickCall};
ghost use Rattle.blot_session.specs.Runs.{Call, AreBorne, AreMet, DeliversOwn, HasNoReset, IsInOrder, behind_calls, said_by};
ghost use Rattle.blot_session.specs.Sending.{CountUp, all_sent, is_of_connection, numbers_borne, numbers_sent};
ghost use Rattle.blot_session.specs.States.{awaited_of, fresh, resumed, waiting_again, closed, phase_of, IsIdle, IsAwaiting, IsState};

use crate::carrying::{go_on, take_row};
use crate::met::met_of;
use crate::reports::take_report;
use crate::state::{LinkState, Live, State};
use crate::taking::{take_frame, take_reply, take_said};
use crate::ticks::{stop_row, tick_row};
use crate::{Action, Met, NotTaken, Phase, SeenReply};
use blot_fields::{FieldFault, Message};
use blot_tag::Frame;
use blot_time::Moment;
use blot_types::Text64;
use std::alloc::{AllocError as NoMemory, Global};
use std::marker::Model;

/// The session with one peer, which the peer initiates. It expects the peer's messages by their number, asks again for
/// those that were lost, delivers each command once, and answers as FIX 4.4 volume 2 says. Both numbers outlive a
/// connection.
#[derive(Drop)]
pub struct Session {
    state: State,
}

impl Model for Session {
    ghost use Rattle.blot_session.specs.declared.state.State.{State};
    ghost use Rattle.blot_session.specs.States.{IsState};

    ghost Value = { State };

    ghost view = { λ session. session.state };

    ghost invariant = { λ session. IsState session.state };
}

impl Session {
    /// The session of a blotter with a peer that was never heard of: it waits for a Logon, and both numbers are 1.
    pub fn new(own: Text64, peer: Text64) -> Session
        ensures { result ≡ fresh own peer }
    {
        Session::resume(own, peer, 1, 1)
    }

    /// The session with a peer that was heard of before, as after a restart: it waits for a Logon, with the numbers that `expected` and
    /// `next` told then, 1 to 1,000,000,000 each.
    pub fn resume(own: Text64, peer: Text64, expected: u64, next: u64) -> Session
        requires expected { (1 ≤ expected) × (expected ≤ SEQUENCE_MAX + 1) }
        requires next { (1 ≤ next) × (next ≤ SEQUENCE_MAX + 1) }
        ensures resumed { result ≡ resumed own peer expected next }

        // It is the session that told these numbers, once that waits again.
        ensures again { (before : State) → before.own ≡ own → before.peer ≡ peer → before.expected ≡ expected → before.next ≡ next
            → result ≡ waiting_again before }
    {
        Session {
            state: State {
                own,
                peer,
                expected,
                next,
                link: LinkState::Waiting,
            },
        }
    }

    /// The peer's CompID.
    pub fn peer(&self) -> &Text64
        ensures { result.now ≡ self.now.peer }
    {
        &self.state.peer
    }

    /// Whether these bytes are the peer's CompID. Neither is copied.
    pub fn is_of(&self, peer: &[u8]) -> bool
        ensures same { result ≡ same_text self.now.peer peer.now }

        // Each CompID is a text.
        ensures text { result ≡ true → IsTrue (is_text peer.now) }
    {
        let known = self.state.peer.bytes();
        known == peer
    }

    /// MsgSeqNum(34) of the peer's next message, 1 to 1,000,000,000.
    #[tactic(auto, using(crate::proofs::RunLemmas::in_order, crate::proofs::SendingLemmas::all_borne))]
    pub fn expected(&self) -> u64
        ensures number { result ≡ self.now.expected }
        ensures range { (1 ≤ result) × (result ≤ SEQUENCE_MAX + 1) }

        // Until the numbers are reset, the numbers of what is taken rise, and each that is missing was covered by a
        // Sequence Reset or borne by another message.
        ensures law { (calls : List Call) → IsIdle self.now → AreMet self.now calls → HasNoReset calls → IsInOrder self.now calls }

        // Each command that is delivered is of a message that bears the number that is expected then.
        ensures borne { (calls : List Call) → AreMet self.now calls → HasNoReset calls → AreBorne self.now calls }
    {
        self.state.expected
    }

    /// MsgSeqNum(34) of the next message to send, 1 to 1,000,000,000.
    #[tactic(auto, using(crate::proofs::SendingLemmas::counted_up))]
    pub fn next(&self) -> u64
        ensures number { result ≡ self.now.next }
        ensures range { (1 ≤ result) × (result ≤ SEQUENCE_MAX + 1) }

        // Until the numbers are reset, the messages of a connection are numbered one after the other, from this one on.
        ensures law { (calls : List Call) → IsIdle self.now → AreMet self.now calls → HasNoReset calls → list_all is_of_connection calls ≡ true
            → CountUp self.now.next (all_sent self.now calls) (behind_calls self.now calls).next }
    {
        self.state.next
    }

    /// Where the session is.
    pub fn phase(&self) -> Phase
        ensures { result ≡ phase_of self.now }
    {
        self.state.phase()
    }

    /// Whether a delivered command awaits its reply.
    pub fn is_awaiting(&self) -> bool
        ensures { result ≡ is_some (awaited_of self.now) }
    {
        matches!(
            self.state.link,
            LinkState::On(Live {
                awaited: Some(_),
                ..
            })
        )
    }

    /// Waits for a Logon again, like a new session, except that both numbers are kept.
    pub fn wait_again(&mut self)
        ensures { self.new ≡ waiting_again self.old }
    {
        self.state.link = LinkState::Waiting;
    }

    /// What becomes of a frame that says this, if it comes now.
    #[tactic(auto, using(crate::proofs::NumberLemmas::of_number))]
    pub fn meets(&self, said: &Result<Message, FieldFault>, now: Moment) -> Met
        requires { HasNumber said.now }
        ensures met { result ≡ met_of self.now said.now now }

        // One that is early is above the number that was expected, and one that is late is below it.
        ensures number { IsOfNumber self.now said.now result }
    {
        met_of(&self.state, said, now)
    }

    /// A frame came. Out of memory, the session is closed, with its number expected as before.
    #[tactic(auto, using(crate::proofs::DeliveryLemmas::awaits_reply))]
    pub fn on_frame(
        &mut self,
        alloc: Global,
        frame: &Frame,
        now: Moment,
    ) -> Result<Vec<Action>, NoMemory>
        requires { IsIdle self.old }
        ensures ok { IfOk result (Gives (on_frame self.old (said_by (text_of frame.now)) now) self.new) }
        ensures err { OnErr result (self.new ≡ closed self.old) }

        // It is the same peer's.
        ensures peer { self.new.peer ≡ self.old.peer }

        // What is delivered is the last action, and the only one, and its reply is awaited.
        ensures awaits { IfOk result (λ actions. Awaits self.new actions.items) }
        ensures alone { IfOk result (λ actions. DeliversAlone actions.items) }

        // It is the command that the frame brings by itself: its own sender's.
        ensures own { IfOk result (λ actions. DeliversOwn (text_of frame.now) actions.items) }

        // What is to be sent bears the numbers that the session counts.
        ensures bears { IfOk result (λ actions. numbers_borne actions.items ≡ numbers_sent self.old (FrameCall (text_of frame.now) now true)) }
    {
        take_frame(alloc, &mut self.state, frame, now)
    }

    /// A frame came that says this: the same, for a caller that has decoded it.
    #[tactic(auto, using(crate::proofs::DeliveryLemmas::awaits_reply))]
    pub fn on_said(
        &mut self,
        alloc: Global,
        said: &Result<Message, FieldFault>,
        now: Moment,
    ) -> Result<Vec<Action>, NoMemory>
        requires idle { IsIdle self.old }
        requires numbers { IsNumbered said.now }
        ensures ok { IfOk result (Gives (on_frame self.old said.now now) self.new) }
        ensures err { OnErr result (self.new ≡ closed self.old) }
        ensures peer { self.new.peer ≡ self.old.peer }
        ensures awaits { IfOk result (λ actions. Awaits self.new actions.items) }
        ensures alone { IfOk result (λ actions. DeliversAlone actions.items) }
        ensures own { (text : List ℕ) → said.now ≡ said_by text → IfOk result (λ actions. DeliversOwn text actions.items) }
        ensures bears { (text : List ℕ) → said.now ≡ said_by text → IfOk result (λ actions. numbers_borne actions.items ≡ numbers_sent self.old (FrameCall text now true)) }
    {
        take_said(alloc, &mut self.state, said, now)
    }

    /// A frame came that says this: whether it is an Execution Report about a fill that came in its turn. Then it is taken, and
    /// the reply to the command that its message brings (`blot_fields::command_of_report`) is awaited. Otherwise nothing has changed,
    /// and it is for `on_said`. It takes no memory.
    pub fn on_report(&mut self, said: &Result<Message, FieldFault>, now: Moment) -> bool
        requires idle { IsIdle self.old }
        requires numbers { IsNumbered said.now }
        ensures report { result ≡ is_report_said self.old said.now }
        ensures taken { result ≡ true → GivesCommand (on_frame self.old said.now now) self.new (command_said said.now self.old.peer) }
        ensures other { result ≡ false → self.new ≡ self.old }
        ensures peer { self.new.peer ≡ self.old.peer }

        // A reply is awaited exactly where it was taken.
        ensures awaits { result ≡ is_some (awaited_of self.new) }
    {
        take_report(&mut self.state, said, now)
    }

    /// A moment passes: a Heartbeat or a TestRequest may be due, or the peer given up. Out of memory, the session is
    /// closed, with its number expected as before.
    #[tactic(auto, using(crate::proofs::StateLemmas::row_fits_tick, crate::proofs::DeliveryLemmas::awaits_tick))]
    pub fn on_tick(&mut self, alloc: Global, now: Moment) -> Result<Vec<Action>, NoMemory>
        requires { IsIdle self.old }
        ensures ok { IfOk result (Gives (on_tick self.old now) self.new) }
        ensures err { OnErr result (self.new ≡ closed self.old) }

        // It is the same peer's, nothing is delivered, and no command awaits its reply.
        ensures peer { self.new.peer ≡ self.old.peer }
        ensures awaits { IfOk result (λ actions. Awaits self.new actions.items) }
        ensures idle { IsIdle self.new }

        // What is to be sent bears the numbers that the session counts.
        ensures bears { IfOk result (λ actions. numbers_borne actions.items ≡ numbers_sent self.old (TickCall now true)) }
    {
        let closed = self.state.closed();
        let row = tick_row(self.state, now);
        let outcome = take_row(alloc, self.state, row, None, now);
        go_on(&mut self.state, outcome, closed)
    }

    /// The day ends: a session that is on says goodbye by one Logout, and is leaving then. A Logout of the peer, under whatever
    /// number, closes it. Any other session, and one that is leaving, does nothing. Out of memory, the session is closed, with its
    /// number expected as before.
    #[tactic(auto, using(crate::proofs::StateLemmas::row_fits_stop, crate::proofs::DeliveryLemmas::awaits_stop))]
    pub fn on_stop(&mut self, alloc: Global, now: Moment) -> Result<Vec<Action>, NoMemory>
        requires { IsIdle self.old }
        ensures ok { IfOk result (Gives (on_stop self.old now) self.new) }
        ensures err { OnErr result (self.new ≡ closed self.old) }

        // It is the same peer's, nothing is delivered, and no command awaits its reply.
        ensures peer { self.new.peer ≡ self.old.peer }
        ensures awaits { IfOk result (λ actions. Awaits self.new actions.items) }
        ensures idle { IsIdle self.new }

        // What is to be sent bears the numbers that the session counts.
        ensures bears { IfOk result (λ actions. numbers_borne actions.items ≡ numbers_sent self.old (StopCall now true)) }
    {
        let closed = self.state.closed();
        let row = stop_row(self.state);
        let outcome = take_row(alloc, self.state, row, None, now);
        go_on(&mut self.state, outcome, closed)
    }

    /// The reply to the command that was delivered last. Out of memory, the session is closed; a command that was taken
    /// counts all the same.
    #[tactic(auto, using(crate::proofs::DeliveryLemmas::awaits_after_reply))]
    pub fn on_reply(
        &mut self,
        alloc: Global,
        reply: Result<SeenReply, NotTaken>,
        now: Moment,
    ) -> Result<Vec<Action>, NoMemory>
        requires { IsAwaiting self.old }
        ensures ok { IfOk result (Gives (on_reply self.old reply now) self.new) }
        ensures err { OnErr result (self.new ≡ closed (row_of_reply self.old reply).state) }

        // It is the same peer's, nothing is delivered, and no command awaits its reply.
        ensures peer { self.new.peer ≡ self.old.peer }
        ensures awaits { IfOk result (λ actions. Awaits self.new actions.items) }
        ensures idle { IsIdle self.new }

        // What is to be sent bears the numbers that the session counts.
        ensures bears { IfOk result (λ actions. numbers_borne actions.items ≡ numbers_sent self.old (ReplyCall reply now true)) }
    {
        take_reply(alloc, &mut self.state, reply, now)
    }

    /// The connection ended. Nothing is sent.
    pub fn on_close(&mut self)
        requires { IsIdle self.old }
        ensures { self.new ≡ closed self.old }
    {
        self.state = self.state.closed();
    }
}

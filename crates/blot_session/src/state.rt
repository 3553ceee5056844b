//! What a session remembers.
ghost use Rattle.std.specs.Prelude.{◌≡◌, ◌≤◌, true, Some, None};
ghost use Rattle.blot_fields.specs.declared.TheConstants.{SEQUENCE_MAX};
ghost use Rattle.blot_session.specs.Rows.{is_sender, is_from_peer};
ghost use Rattle.blot_session.specs.States.{phase_of, restarted, expecting, counted, counted_under, is_leaving, opened, heard, asking, awaiting, answered, spoken, leaving, closed, changed};

use blot_fields::Head;
use blot_time::Moment;
use blot_types::Text64;

/// Where a session is.
#[derive(Clone, Copy, Debug, PartialEq, Eq)]
pub enum Phase {
    /// It waits for a Logon.
    Waiting,
    /// It is logged on.
    On,
    /// It is closed, and does nothing.
    Closed,
}

/// What a session remembers. Both numbers outlive a connection.
#[derive(Clone, Copy)]
pub(crate) struct State {
    /// The blotter's CompID.
    pub(crate) own: Text64,
    /// The peer's CompID.
    pub(crate) peer: Text64,
    /// MsgSeqNum of the peer's next message, 1 to 1,000,000,000.
    pub(crate) expected: u64,
    /// MsgSeqNum of the next message to send, from 1 on.
    pub(crate) next: u64,
    pub(crate) link: LinkState,
}

/// What a session remembers of its connection.
#[derive(Clone, Copy)]
pub(crate) enum LinkState {
    Waiting,
    On(Live),
    Closed,
}

/// What a session that is logged on remembers of its connection.
#[derive(Clone, Copy)]
pub(crate) struct Live {
    /// HeartBtInt(108), 0 to 86,400 seconds; 0 for no heartbeats.
    pub(crate) heartbeat: u32,
    /// When the last frame came.
    pub(crate) received: Moment,
    /// When the last message was sent.
    pub(crate) sent: Moment,
    /// When the TestRequest was sent after which no frame has come, if one is out.
    pub(crate) asked: Option<Moment>,
    /// What was delivered and not replied to yet.
    pub(crate) awaited: Option<Awaited>,
    /// Whether the session said goodbye.
    pub(crate) leaving: bool,
}

/// A delivered command that awaits its reply.
#[derive(Clone, Copy)]
pub(crate) enum Awaited {
    /// Of an Execution Report, whose reply the peer isn't told.
    Report,
    /// Of the Allocation Instruction with this AllocID(70), which is answered.
    Allocation(Text64),
}

impl State {
    /// The phase.
    pub(crate) fn phase(self) -> Phase
        ensures { result ≡ phase_of self }
    {
        match self.link {
            LinkState::Waiting => Phase::Waiting,
            LinkState::On(_) => Phase::On,
            LinkState::Closed => Phase::Closed,
        }
    }

    /// Both numbers at 1 again.
    pub(crate) fn restarted(self) -> State
        ensures { result ≡ restarted self }
    {
        State {
            expected: 1,
            next: 1,
            ..self
        }
    }

    /// Another number is expected.
    pub(crate) fn expecting(self, number: u64) -> State
        ensures { result ≡ expecting number self }
    {
        State {
            expected: number,
            ..self
        }
    }

    /// The expected message came.
    pub(crate) fn counted(self) -> State
        requires { self.expected ≤ SEQUENCE_MAX }
        ensures { result ≡ counted self }
    {
        self.expecting(self.expected + 1)
    }

    /// A message with this number came: the next one is expected where it is the expected one.
    pub(crate) fn counted_under(self, number: u64) -> State
        requires { number ≤ SEQUENCE_MAX }
        ensures { result ≡ counted_under number self }
    {
        if self.expected == number {
            return self.counted();
        }
        self
    }

    /// Whether it said goodbye on this connection.
    pub(crate) fn is_leaving(&self) -> bool
        ensures { result ≡ is_leaving self.now }
    {
        match &self.link {
            LinkState::On(live) => live.leaving,
            _ => false,
        }
    }

    /// Logged on. One that was on and leaving stays so.
    pub(crate) fn opened(self, heartbeat: u32, now: Moment) -> State
        ensures { result ≡ opened heartbeat now self }
    {
        let leaving = self.is_leaving();
        State {
            link: LinkState::On(Live {
                heartbeat,
                received: now,
                sent: now,
                asked: None,
                awaited: None,
                leaving,
            }),
            ..self
        }
    }

    /// A frame came, which ends the wait for a TestRequest's answer.
    pub(crate) fn heard(self, now: Moment) -> State
        ensures { result ≡ heard now self }
    {
        State {
            link: self.link.heard(now),
            ..self
        }
    }

    /// A TestRequest is sent.
    pub(crate) fn asking(self, now: Moment) -> State
        ensures { result ≡ asking now self }
    {
        State {
            link: self.link.asking(now),
            ..self
        }
    }

    /// A command is delivered, and awaits its reply.
    pub(crate) fn awaiting(self, awaited: Awaited) -> State
        ensures { result ≡ awaiting awaited self }
    {
        State {
            link: self.link.awaiting(Some(awaited)),
            ..self
        }
    }

    /// No command awaits its reply any more.
    pub(crate) fn answered(self) -> State
        ensures { result ≡ answered self }
    {
        State {
            link: self.link.awaiting(None),
            ..self
        }
    }

    /// A message is sent.
    pub(crate) fn spoken(self, now: Moment) -> State
        ensures { result ≡ spoken now self }
    {
        State {
            link: self.link.spoken(now),
            ..self
        }
    }

    /// The session says goodbye.
    pub(crate) fn leaving(self) -> State
        ensures { result ≡ leaving self }
    {
        State {
            link: self.link.leaving(),
            ..self
        }
    }

    /// The connection is closed.
    pub(crate) fn closed(self) -> State
        ensures { result ≡ closed self }
    {
        State {
            link: LinkState::Closed,
            ..self
        }
    }

    /// Whether a message names this peer and own CompID.
    pub(crate) fn is_from_peer(&self, head: &Head) -> bool
        ensures { result ≡ is_from_peer self.now head.now }
    {
        self.is_sender(head) && head.target.bytes() == self.own.bytes()
    }

    /// Whether a message names this peer.
    pub(crate) fn is_sender(&self, head: &Head) -> bool
        ensures { result ≡ is_sender self.now head.now }
    {
        head.sender.bytes() == self.peer.bytes()
    }
}

impl LinkState {
    // A frame came.
    fn heard(self, now: Moment) -> LinkState
        ensures { result ≡ changed (λ live. record live { received = now; asked = None }) self }
    {
        match self {
            LinkState::On(live) => LinkState::On(Live {
                received: now,
                asked: None,
                ..live
            }),
            other => other,
        }
    }

    // A TestRequest is sent.
    fn asking(self, now: Moment) -> LinkState
        ensures { result ≡ changed (λ live. record live { asked = Some now }) self }
    {
        match self {
            LinkState::On(live) => LinkState::On(Live {
                asked: Some(now),
                ..live
            }),
            other => other,
        }
    }

    // A reply is awaited, or none is.
    fn awaiting(self, awaited: Option<Awaited>) -> LinkState
        ensures { result ≡ changed (λ live. record live { awaited = awaited }) self }
    {
        match self {
            LinkState::On(live) => LinkState::On(Live { awaited, ..live }),
            other => other,
        }
    }

    // A message is sent.
    fn spoken(self, now: Moment) -> LinkState
        ensures { result ≡ changed (λ live. record live { sent = now }) self }
    {
        match self {
            LinkState::On(live) => LinkState::On(Live { sent: now, ..live }),
            other => other,
        }
    }

    // The session says goodbye.
    fn leaving(self) -> LinkState
        ensures { result ≡ changed (λ live. record live { leaving = true }) self }
    {
        match self {
            LinkState::On(live) => LinkState::On(Live {
                leaving: true,
                ..live
            }),
            other => other,
        }
    }
}

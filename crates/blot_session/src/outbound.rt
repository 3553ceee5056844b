//! Messages to send.
ghost use Rattle.std.specs.Prelude.{◌≡◌, ◌-◌, ◌^◌, ◌<◌, true};
ghost use Rattle.blot_types.specs.Text.{is_text};
ghost use Rattle.blot_session.specs.Outbound.{kind_of, number_of, next_behind, is_gap_fill};
ghost use Rattle.blot_session.specs.declared.outbound.Outbound.TheVariants.{ResendRequest, Reject};

use crate::SeenReply;
use blot_types::Text64;

/// A message to send, without its header. FIX 4.4 volume 2, "Administrative messages"; volume 5, "Allocation
/// Instruction Ack".
#[derive(Clone, Copy)]
pub(crate) enum Outbound {
    /// 35=A, with EncryptMethod(98) 0.
    Logon {
        /// HeartBtInt(108).
        heartbeat: u32,
        /// ResetSeqNumFlag(141), sent where it is true.
        reset: bool,
    },
    /// 35=0, with the TestReqID(112) of the TestRequest that it answers, if it answers one.
    Heartbeat {
        id: Option<Text64>,
    },
    /// 35=1. Its TestReqID(112) is its own number.
    TestRequest,
    /// 35=2. BeginSeqNo(7), to the last of all.
    ResendRequest {
        begin: u64,
    },
    /// 35=3: RefSeqNum(45), RefTagID(371) where it isn't 0, SessionRejectReason(373).
    Reject {
        number: u64,
        tag: u32,
        reason: u8,
    },
    /// 35=4 with GapFillFlag(123), under the number of the first message that isn't sent again.
    GapFill {
        begin: u64,
    },
    /// 35=5.
    Logout,
    /// 35=j: RefSeqNum(45), RefMsgType(372), and BusinessRejectReason(380) 3.
    Unsupported {
        number: u64,
        kind: Text64,
    },
    /// 35=P: the AllocID(70) that is answered, and how.
    AllocationAck {
        id: Text64,
        reply: SeenReply,
    },
}

// SessionRejectReason(373) of a value that is out of range.
const VALUE_INCORRECT: u8 = 5;

impl Outbound {
    /// All messages from the expected one on are asked for again.
    pub(crate) fn asked_again(expected: u64) -> Outbound
        ensures { result ≡ ResendRequest expected }
    {
        Outbound::ResendRequest { begin: expected }
    }

    /// A Reject of a message for a value that is out of range.
    pub(crate) fn incorrect(number: u64, tag: u32) -> Outbound
        ensures { result ≡ Reject number tag VALUE_INCORRECT }
    {
        Outbound::Reject {
            number,
            tag,
            reason: VALUE_INCORRECT,
        }
    }

    /// MsgType(35).
    pub(crate) fn kind(&self) -> &'static [u8]
        ensures kind { result.now ≡ kind_of self.now }
        ensures text { is_text result.now ≡ true }
    {
        match self {
            Outbound::Logon { .. } => b"A",
            Outbound::Heartbeat { .. } => b"0",
            Outbound::TestRequest => b"1",
            Outbound::ResendRequest { .. } => b"2",
            Outbound::Reject { .. } => b"3",
            Outbound::GapFill { .. } => b"4",
            Outbound::Logout => b"5",
            Outbound::Unsupported { .. } => b"j",
            Outbound::AllocationAck { .. } => b"P",
        }
    }

    /// The number that it is sent under, where this is the next one: a gap fill has that of the first message
    /// that it stands for.
    pub(crate) fn number(&self, next: u64) -> u64
        ensures { result ≡ number_of self.now next }
    {
        match self {
            Outbound::GapFill { begin } => *begin,
            _ => next,
        }
    }

    /// Whether it stands for messages that were sent before.
    pub(crate) fn is_gap_fill(&self) -> bool
        ensures { result ≡ is_gap_fill self.now }
    {
        matches!(self, Outbound::GapFill { .. })
    }

    /// The next number to send after it. A gap fill uses none up.
    pub(crate) fn next_behind(&self, next: u64) -> u64
        requires { next < 2 ^ 64 - 1 }
        ensures { result ≡ next_behind self.now next }
    {
        match self {
            Outbound::GapFill { .. } => next,
            _ => next + 1,
        }
    }
}

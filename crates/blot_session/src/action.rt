//! What a session wants done.
ghost use Rattle.std.specs.Prelude.{◌≡◌};
ghost use Rattle.blot_session.specs.CloseNames.{close_name, close_number};

use blot_types::Command;
use std::marker::Model;

/// What a session wants done. The list of a call has its sends first, and then at most one of the others.
#[derive(Debug, Drop)]
pub enum Action {
    /// These bytes, one whole frame, go to the peer.
    Send(Bytes),
    /// The command goes to the book, and the reply to it comes back by `Session::on_reply` before any other call.
    Deliver(Command),
    /// The connection ends.
    Close(CloseReason),
}

/// The bytes of a frame. A contract sees them as a list.
#[derive(Debug, Drop)]
pub struct Bytes {
    items: Vec<u8>,
}

impl Model for Bytes {
    ghost use Rattle.std.specs.Prelude.{ℕ, List};

    ghost Value = { List ℕ };

    ghost view = { λ bytes. bytes.items.items };
}

impl Bytes {
    /// The bytes of a vector. No memory is taken.
    pub(crate) fn new(items: Vec<u8>) -> Bytes
        ensures { result ≡ items.items }
    {
        Bytes { items }
    }

    /// The bytes, from the first to the last.
    pub fn as_slice(&self) -> &[u8]
        ensures { result.now ≡ self.now }
    {
        self.items.as_slice()
    }
}

/// Why a session ends its connection. This project's rule.
#[derive(Clone, Copy, Debug, PartialEq, Eq)]
pub enum CloseReason {
    /// The first message is no Logon, or is at fault, or is a Logon with PossDupFlag and a number already taken.
    NoLogon = 1,
    /// A number below the expected one, without PossDupFlag.
    TooLow = 2,
    /// SenderCompID or TargetCompID is another.
    CompId = 3,
    /// The peer logged out: it was answered, or it answered the session's own Logout.
    LoggedOut = 4,
    /// The peer was silent, and didn't answer a TestRequest.
    Silent = 5,
    /// The peer has a session already. No session says this: it is for who checks sessions out.
    AlreadyOn = 6,
    /// The header of a message is at fault.
    BadHeader = 7,
    /// The numbers to send are used up.
    Spent = 8,
    /// What was delivered wasn't taken.
    NotTaken = 9,
}

impl CloseReason {
    /// The number of a reason, 1 to 9.
    pub fn number(self) -> u8
        ensures { result ≡ close_number self }
    {
        match self {
            CloseReason::NoLogon => 1,
            CloseReason::TooLow => 2,
            CloseReason::CompId => 3,
            CloseReason::LoggedOut => 4,
            CloseReason::Silent => 5,
            CloseReason::AlreadyOn => 6,
            CloseReason::BadHeader => 7,
            CloseReason::Spent => 8,
            CloseReason::NotTaken => 9,
        }
    }

    /// The name under which a reason is told: that of the variant.
    pub fn name(self) -> &'static [u8]
        ensures { result.now ≡ close_name self }
    {
        match self {
            CloseReason::NoLogon => b"NoLogon",
            CloseReason::TooLow => b"TooLow",
            CloseReason::CompId => b"CompId",
            CloseReason::LoggedOut => b"LoggedOut",
            CloseReason::Silent => b"Silent",
            CloseReason::AlreadyOn => b"AlreadyOn",
            CloseReason::BadHeader => b"BadHeader",
            CloseReason::Spent => b"Spent",
            CloseReason::NotTaken => b"NotTaken",
        }
    }
}

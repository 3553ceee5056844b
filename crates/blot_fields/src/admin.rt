//! The messages of the session layer.
ghost use Rattle.std.specs.Prelude.{◌≡◌, IfOk};
ghost use Rattle.blot_fields.specs.Numbers.{NamesNumber};
ghost use Rattle.blot_fields.specs.Messages.{logon_of, test_request_of, resend_request_of, sequence_reset_of};

use crate::SEQUENCE_MAX;
use crate::fault::Wrong;
use crate::index::FieldIndex;
use crate::rows::{needed, number, optional, zero};
use crate::text::Text;

// A day, in seconds.
const HEARTBEAT_MAX: u64 = 86_400;

/// An administrative message. FIX 4.4 volume 2, "Administrative messages".
#[derive(Debug, PartialEq, Eq, Drop)]
pub enum Admin<'a> {
    /// 35=A, with EncryptMethod(98) 0.
    Logon {
        /// HeartBtInt(108), 0 to 86,400 seconds.
        heartbeat: u32,
        /// ResetSeqNumFlag(141); false where it is missing.
        reset: bool,
    },
    /// 35=0.
    Heartbeat,
    /// 35=1, with TestReqID(112).
    TestRequest {
        id: Text<'a>,
    },
    /// 35=2.
    ResendRequest {
        /// BeginSeqNo(7), 1 to 999,999,999.
        begin: u64,
        /// EndSeqNo(16), 0 for the last of all, to 999,999,999.
        end: u64,
    },
    /// 35=3.
    Reject,
    /// 35=4.
    SequenceReset {
        /// NewSeqNo(36), 1 to 999,999,999.
        new_number: u64,
        /// GapFillFlag(123); false where it is missing.
        gap_fill: bool,
    },
    /// 35=5.
    Logout,
}

/// Reads a Logon.
#[tactic(auto, unfolding(crate::specs::Messages::logon_of))]
pub(crate) fn logon_of<'a>(fields: &FieldIndex<'a, '_>) -> Result<Admin<'a>, Wrong>
    ensures value { result ≡ logon_of fields.now }
    ensures range { IfOk result NamesNumber }
{
    zero(fields, 98)?;
    let heartbeat = number(fields, 108, 0, HEARTBEAT_MAX)? as u32;
    let reset = optional::<bool>(fields, 141)?.unwrap_or(false);
    Ok(Admin::Logon { heartbeat, reset })
}

/// Reads a Test Request.
#[tactic(auto, unfolding(crate::specs::Messages::test_request_of))]
pub(crate) fn test_request_of<'a>(fields: &FieldIndex<'a, '_>) -> Result<Admin<'a>, Wrong>
    ensures value { result ≡ test_request_of fields.now }
    ensures range { IfOk result NamesNumber }
{
    let id = needed::<Text>(fields, 112)?;
    Ok(Admin::TestRequest { id })
}

/// Reads a Resend Request.
#[tactic(auto, unfolding(crate::specs::Messages::resend_request_of))]
pub(crate) fn resend_request_of<'a>(fields: &FieldIndex<'a, '_>) -> Result<Admin<'a>, Wrong>
    ensures value { result ≡ resend_request_of fields.now }
    ensures range { IfOk result NamesNumber }
{
    let begin = number(fields, 7, 1, SEQUENCE_MAX)?;
    let end = number(fields, 16, 0, SEQUENCE_MAX)?;
    Ok(Admin::ResendRequest { begin, end })
}

/// Reads a Sequence Reset.
#[tactic(auto, unfolding(crate::specs::Messages::sequence_reset_of))]
pub(crate) fn sequence_reset_of<'a>(fields: &FieldIndex<'a, '_>) -> Result<Admin<'a>, Wrong>
    ensures value { result ≡ sequence_reset_of fields.now }
    ensures range { IfOk result NamesNumber }
{
    let new_number = number(fields, 36, 1, SEQUENCE_MAX)?;
    let gap_fill = optional::<bool>(fields, 123)?.unwrap_or(false);
    Ok(Admin::SequenceReset {
        new_number,
        gap_fill,
    })
}

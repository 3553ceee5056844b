//! The header of a message.
ghost use Rattle.std.specs.Prelude.{◌≡◌, ◌≤◌, IfOk, option_copied};
ghost use Rattle.blot_fields.specs.declared.TheConstants.{SEQUENCE_MAX};
ghost use Rattle.blot_fields.specs.Messages.{head_of};
ghost use Rattle.blot_fields.specs.Numbers.{head_in};

use crate::fault::Wrong;
use crate::index::FieldIndex;
use crate::rows::{needed, number, optional};
use crate::text::Text;
use crate::{FieldFault, Message, SEQUENCE_MAX};
use blot_time::Moment;

/// What the header says. FIX 4.4 volume 2, "Standard message header".
#[derive(Debug, PartialEq, Eq, Drop)]
pub struct Head<'a> {
    /// MsgType(35).
    pub kind: Text<'a>,
    /// SenderCompID(49).
    pub sender: Text<'a>,
    /// TargetCompID(56).
    pub target: Text<'a>,
    /// MsgSeqNum(34), 1 to 999,999,999.
    pub number: u64,
    /// PossDupFlag(43); false where it is missing.
    pub dup: bool,
    /// SendingTime(52).
    pub sending: Moment,
}

/// Reads the header. FIX 4.4 volume 2, "Standard message header".
#[tactic(auto, unfolding(crate::specs::Messages::head_of))]
pub(crate) fn head_of<'a>(fields: &FieldIndex<'a, '_>) -> Result<Head<'a>, Wrong>
    ensures value { result ≡ head_of fields.now }
    ensures range { IfOk result (λ head. head.number ≤ SEQUENCE_MAX) }
{
    let kind = needed::<Text>(fields, 35)?;
    let sender = needed::<Text>(fields, 49)?;
    let target = needed::<Text>(fields, 56)?;
    let number = number(fields, 34, 1, SEQUENCE_MAX)?;
    let sending = needed::<Moment>(fields, 52)?;
    let dup = optional::<bool>(fields, 43)?.unwrap_or(false);
    Ok(Head {
        kind,
        sender,
        target,
        number,
        dup,
        sending,
    })
}

/// The header of what a frame says, where it can be read.
pub fn head_in<'s, 'a>(said: &'s Result<Message<'a>, FieldFault<'a>>) -> Option<&'s Head<'a>>
    ensures { option_copied result ≡ head_in said.now }
{
    match said {
        Ok(message) => Some(&message.head),
        Err(fault) => fault.head.as_ref(),
    }
}

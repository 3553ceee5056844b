//! Reads whole messages.
ghost use Rattle.std.specs.Prelude.{◌≡◌, ◌↔◌, Ok, Err, IsOk, IsOkAnd, IfOk, IfErr, true, false};
ghost use Rattle.blot_tag.specs.Views.{items_of};
ghost use Rattle.blot_fields.specs.Decoding.{IsAllocation, GivesBody, decoded, is_out_of_memory, no_memory};
ghost use Rattle.blot_fields.specs.First.{IsSentAt};
ghost use Rattle.blot_fields.specs.Tables.{IsWell, IsFault};
ghost use Rattle.blot_fields.specs.Messages.{body_of};
ghost use Rattle.blot_fields.specs.Numbers.{IsNumbered, BodyNamesNumber};

use crate::admin::{logon_of, resend_request_of, sequence_reset_of, test_request_of};
use crate::allocation::allocation_of;
use crate::fault::Refusal;
use crate::head::head_of;
use crate::index::{FieldIndex, no_occurrences, note_fields};
use crate::kinds::{Kind, kind_of};
use crate::report::report_of;
use crate::{Admin, Body, FieldFault, FieldReason, Message};
use blot_tag::Frame;
use std::alloc::Global;

/// What a frame says: its message, or the first fault. `NoMemory` comes last; only the lists of an
/// Allocation Instruction take memory. FIX 4.4 volume 2, "Reject"; the order of the faults is this
/// project's rule.
#[tactic(auto, using(crate::proofs::DecodingLemmas::decoded_well, crate::proofs::DecodingLemmas::decoded_fault, crate::proofs::SendingLemmas::decoded_sent), unfolding(crate::specs::Decoding::decoded))]
pub fn decode<'a>(alloc: Global, frame: &Frame<'a>) -> Result<Message<'a>, FieldFault<'a>>
    ensures meaning { is_out_of_memory result ≡ false → result ≡ decoded (items_of frame.now) }
    ensures memory { is_out_of_memory result ≡ true → IsOkAnd (decoded (items_of frame.now))
        (λ message. (result ≡ Err (no_memory message)) × IsAllocation message.body) }

    // Each number that is given is a sequence number.
    ensures numbers { IsNumbered result }

    // A message was sent at its first SendingTime.
    ensures sent { IfOk (decoded (items_of frame.now)) (IsSentAt (items_of frame.now)) }

    // In a reader's words: a message is what is well by each row, and a fault is the first.
    ensures well { IsOk (decoded (items_of frame.now)) ↔ IsWell (items_of frame.now) }
    ensures first { IfErr (decoded (items_of frame.now)) (IsFault (items_of frame.now)) }
{
    let mut occurrences = no_occurrences();
    let refused = note_fields(&mut occurrences, frame);
    let fields = FieldIndex::new(frame, &occurrences);
    let head = head_of(&fields);
    if let Some(wrong) = refused {
        return Err(wrong.under(head.ok()));
    }
    let head = match head {
        Ok(head) => head,
        Err(wrong) => return Err(wrong.under(None)),
    };
    match body_of(alloc, kind_of(head.kind.bytes()), &fields) {
        Ok(body) => Ok(Message { head, body }),
        Err(Refusal::Wrong(wrong)) => Err(wrong.under(Some(head))),
        Err(Refusal::NoMemory) => Err(FieldFault::no_memory(head)),
    }
}

/// Whether there was no memory for what a frame says.
pub fn is_out_of_memory(said: &Result<Message, FieldFault>) -> bool
    ensures { result ≡ is_out_of_memory said.now }
{
    match said {
        Ok(_) => false,
        Err(fault) => fault.reason == FieldReason::NoMemory,
    }
}

// What a message of a kind says after its header.
fn body_of<'a>(alloc: Global, kind: Kind, fields: &FieldIndex<'a, '_>) -> Result<Body<'a>, Refusal>
    ensures body { GivesBody result (body_of kind fields.now) }
    ensures numbers { IfOk result BodyNamesNumber }
{
    let body = match kind {
        Kind::Logon => Body::Admin(logon_of(fields)?),
        Kind::Heartbeat => Body::Admin(Admin::Heartbeat),
        Kind::TestRequest => Body::Admin(test_request_of(fields)?),
        Kind::ResendRequest => Body::Admin(resend_request_of(fields)?),
        Kind::Reject => Body::Admin(Admin::Reject),
        Kind::SequenceReset => Body::Admin(sequence_reset_of(fields)?),
        Kind::Logout => Body::Admin(Admin::Logout),
        Kind::Report => Body::Report(report_of(fields)?),
        Kind::Allocation => Body::Allocation(allocation_of(alloc, fields)?),
        Kind::Other => Body::Other,
    };
    Ok(body)
}

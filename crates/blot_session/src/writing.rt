//! The bytes of a message.
ghost use Rattle.std.specs.Prelude.{◌≡◌, ◌+◌, ◌<◌, ◌≤◌, length, true, IfOk, Ok, OnOk, decimal};
ghost use Rattle.blot_tag.specs.Writing.{begun, body_of, with_field};
ghost use Rattle.blot_tag.specs.declared.write_fault.WriteFault.TheVariants as WriteFault;
ghost use Rattle.blot_tag.specs.Fields.{field_of};
ghost use Rattle.blot_time.specs.Moment.{moment_of, moment_text};
ghost use Rattle.blot_types.specs.Text.{is_text};
ghost use Rattle.blot_fields.specs.Numbers.{head_in};
ghost use Rattle.blot_fields.specs.declared.TheConstants.{SEQUENCE_MAX};
ghost use Rattle.blot_session.specs.Outbound.{AreShort, IsShort, ack_fields, body_fields, gap_fill_fields, header_fields, logon_fields, reject_fields, resend_fields, text_of, unsupported_fields, with_fields, is_plain_tag};
ghost use Rattle.blot_session.specs.Runs.{said_by};
ghost use Rattle.blot_session.specs.Sending.{number_by, number_used};

use crate::outbound::Outbound;
use crate::state::State;
use crate::{SeenReply, tags};
use blot_tag::{FrameText, WriteFault};
use blot_time::Moment;
use blot_types::{Refused, Text64};
use itoa::Buffer;
use std::alloc::{AllocError as NoMemory, Global};

// No field that a session sends has more bytes, with its tag, `=` and SOH.
const FIELD_MAX: usize = 80;

// No message has more bytes up to the end of its header.
const HEADER_MAX: usize = 2_000;

// No field is added after more bytes than these.
const BODY_MAX: usize = 4_000;

/// The frame of a message that is sent next.
#[tactic(auto, unfolding(crate::specs::Outbound::text_of))]
pub(crate) fn text_of(
    alloc: Global,
    state: &State,
    message: &Outbound,
    now: Moment,
) -> Result<Vec<u8>, NoMemory>
    requires low { 1 ≤ state.now.next }
    requires high { state.now.next ≤ SEQUENCE_MAX }
    ensures text { IfOk result (λ text. text.items ≡ text_of state.now message.now now) }

    // A reader finds its number in its header.
    ensures bears { IfOk result (λ text. number_by (head_in (said_by text.items)) ≡ number_used message.now state.now.next) }
{
    let mut text = begin(alloc, message.kind())?;
    put_header(&mut text, state, message, now)?;
    put_body(&mut text, message, state.next, now)?;
    text.finish()
}

// A message of a kind, without fields.
#[tactic(auto, using(crate::proofs::TextLemmas::begin_fault, crate::proofs::TextLemmas::begin_size, crate::proofs::TextLemmas::begin_short, crate::proofs::TextLemmas::kind_some))]
fn begin(alloc: Global, kind: &[u8]) -> Result<FrameText, NoMemory>
    requires { is_text kind.now ≡ true }
    ensures text { IfOk result (λ text. text ≡ begun kind.now) }
    ensures size { IfOk result (λ text. length (body_of text) ≤ FIELD_MAX) }
    ensures short { IfOk result (λ text. AreShort text.fields) }
{
    match FrameText::new(alloc, kind) {
        Ok(text) => Ok(text),
        Err(fault) => Err(out_of_memory(fault)),
    }
}

// Puts the header.
fn put_header(
    text: &mut FrameText,
    state: &State,
    message: &Outbound,
    now: Moment,
) -> Result<(), NoMemory>
    requires room { length (body_of text.old) ≤ FIELD_MAX }
    requires short { AreShort text.old.fields }
    ensures fields { OnOk result (text.new ≡ with_fields text.old (header_fields state.now message.now now)) }
    ensures size { OnOk result (length (body_of text.new) ≤ HEADER_MAX) }
    ensures short { OnOk result (AreShort text.new.fields) }
    ensures own { OnOk result (is_text state.now.own ≡ true) }
    ensures peer { OnOk result (is_text state.now.peer ≡ true) }
    ensures sent { OnOk result (moment_of (moment_text now) ≡ Ok now) }
{
    put_text(text, tags::SENDER_COMP_ID, &state.own)?;
    put_text(text, tags::TARGET_COMP_ID, &state.peer)?;
    put_number(text, tags::MSG_SEQ_NUM, message.number(state.next))?;
    if message.is_gap_fill() {
        put(text, tags::POSS_DUP_FLAG, b"Y")?;
        put_moment(text, tags::SENDING_TIME, now)?;
        return put_moment(text, tags::ORIG_SENDING_TIME, now);
    }
    put_moment(text, tags::SENDING_TIME, now)
}

// Puts what stands after the header.
fn put_body(
    text: &mut FrameText,
    message: &Outbound,
    next: u64,
    now: Moment,
) -> Result<(), NoMemory>
    requires room { length (body_of text.old) ≤ HEADER_MAX }
    requires short { AreShort text.old.fields }
    ensures fields { OnOk result (text.new ≡ with_fields text.old (body_fields message.now next now)) }
    ensures short { OnOk result (AreShort text.new.fields) }
{
    match message {
        Outbound::Logon { heartbeat, reset } => put_logon(text, *heartbeat, *reset),
        Outbound::Heartbeat { id: Some(id) } => put_text(text, tags::TEST_REQ_ID, id),
        Outbound::Heartbeat { id: None } => Ok(()),
        Outbound::TestRequest => put_number(text, tags::TEST_REQ_ID, next),
        Outbound::ResendRequest { begin } => put_resend_request(text, *begin),
        Outbound::Reject {
            number,
            tag,
            reason,
        } => put_reject(text, *number, *tag, *reason),
        Outbound::GapFill { .. } => put_gap_fill(text, next),
        Outbound::Logout => Ok(()),
        Outbound::Unsupported { number, kind } => put_unsupported(text, *number, kind),
        Outbound::AllocationAck { id, reply } => put_allocation_ack(text, id, *reply, now),
    }
}

// Puts the fields of a Logon.
fn put_logon(text: &mut FrameText, heartbeat: u32, reset: bool) -> Result<(), NoMemory>
    requires room { length (body_of text.old) ≤ HEADER_MAX }
    requires short { AreShort text.old.fields }
    ensures fields { OnOk result (text.new ≡ with_fields text.old (logon_fields heartbeat reset)) }
    ensures short { OnOk result (AreShort text.new.fields) }
{
    put(text, tags::ENCRYPT_METHOD, b"0")?;
    put_number(text, tags::HEART_BT_INT, u64::from(heartbeat))?;
    if reset {
        return put(text, tags::RESET_SEQ_NUM_FLAG, b"Y");
    }
    Ok(())
}

// Puts the fields of a Resend Request.
fn put_resend_request(text: &mut FrameText, begin: u64) -> Result<(), NoMemory>
    requires room { length (body_of text.old) ≤ HEADER_MAX }
    requires short { AreShort text.old.fields }
    ensures fields { OnOk result (text.new ≡ with_fields text.old (resend_fields begin)) }
    ensures short { OnOk result (AreShort text.new.fields) }
{
    put_number(text, tags::BEGIN_SEQ_NO, begin)?;
    put(text, tags::END_SEQ_NO, b"0")
}

// Puts the fields of a Reject.
fn put_reject(text: &mut FrameText, number: u64, tag: u32, reason: u8) -> Result<(), NoMemory>
    requires room { length (body_of text.old) ≤ HEADER_MAX }
    requires short { AreShort text.old.fields }
    ensures fields { OnOk result (text.new ≡ with_fields text.old (reject_fields number tag reason)) }
    ensures short { OnOk result (AreShort text.new.fields) }
{
    put_number(text, tags::REF_SEQ_NUM, number)?;
    if tag != 0 {
        put_number(text, tags::REF_TAG_ID, u64::from(tag))?;
    }
    put_number(text, tags::SESSION_REJECT_REASON, u64::from(reason))
}

// Puts the fields of a gap fill up to the next number to send.
fn put_gap_fill(text: &mut FrameText, next: u64) -> Result<(), NoMemory>
    requires room { length (body_of text.old) ≤ HEADER_MAX }
    requires short { AreShort text.old.fields }
    ensures fields { OnOk result (text.new ≡ with_fields text.old (gap_fill_fields next)) }
    ensures short { OnOk result (AreShort text.new.fields) }
{
    put(text, tags::GAP_FILL_FLAG, b"Y")?;
    put_number(text, tags::NEW_SEQ_NO, next)
}

// Puts the fields of a Business Message Reject for a type that isn't supported.
fn put_unsupported(text: &mut FrameText, number: u64, kind: &Text64) -> Result<(), NoMemory>
    requires room { length (body_of text.old) ≤ HEADER_MAX }
    requires short { AreShort text.old.fields }
    ensures fields { OnOk result (text.new ≡ with_fields text.old (unsupported_fields number kind.now)) }
    ensures short { OnOk result (AreShort text.new.fields) }
{
    put_number(text, tags::REF_SEQ_NUM, number)?;
    put_text(text, tags::REF_MSG_TYPE, kind)?;
    put(text, tags::BUSINESS_REJECT_REASON, b"3")
}

// Puts the fields of an Allocation Instruction Ack.
fn put_allocation_ack(
    text: &mut FrameText,
    id: &Text64,
    reply: SeenReply,
    now: Moment,
) -> Result<(), NoMemory>
    requires room { length (body_of text.old) ≤ HEADER_MAX }
    requires short { AreShort text.old.fields }
    ensures fields { OnOk result (text.new ≡ with_fields text.old (ack_fields id.now reply now)) }
    ensures short { OnOk result (AreShort text.new.fields) }
{
    put_text(text, tags::ALLOC_ID, id)?;
    put_moment(text, tags::TRANSACT_TIME, now)?;
    match reply {
        SeenReply::Accepted => put(text, tags::ALLOC_STATUS, b"0"),
        SeenReply::Refused(refusal) => {
            put(text, tags::ALLOC_STATUS, b"1")?;
            put_number(text, tags::ALLOC_REJ_CODE, Refused::reject_code(refusal))
        }
    }
}

// Puts a text.
#[tactic(auto, using(crate::proofs::ShortLemmas::short_text))]
fn put_text(text: &mut FrameText, tag: u32, value: &Text64) -> Result<(), NoMemory>
    requires tag { is_plain_tag tag ≡ true }
    requires room { length (body_of text.old) ≤ BODY_MAX }
    requires short { AreShort text.old.fields }
    ensures field { OnOk result (text.new ≡ with_field text.old (field_of tag value.now)) }
    ensures size { OnOk result (length (body_of text.new) ≤ length (body_of text.old) + FIELD_MAX) }
    ensures short { OnOk result (AreShort text.new.fields) }
    ensures text { is_text value.now ≡ true }
{
    put(text, tag, value.bytes())
}

// Puts a number.
#[tactic(auto, using(crate::proofs::ShortLemmas::short_decimal))]
fn put_number(text: &mut FrameText, tag: u32, number: u64) -> Result<(), NoMemory>
    requires tag { is_plain_tag tag ≡ true }
    requires room { length (body_of text.old) ≤ BODY_MAX }
    requires short { AreShort text.old.fields }
    ensures field { OnOk result (text.new ≡ with_field text.old (field_of tag (decimal number))) }
    ensures size { OnOk result (length (body_of text.new) ≤ length (body_of text.old) + FIELD_MAX) }
    ensures short { OnOk result (AreShort text.new.fields) }
{
    put(text, tag, Buffer::new().format(number).as_bytes())
}

// Puts a moment.
#[tactic(auto, using(crate::proofs::ShortLemmas::short_moment))]
fn put_moment(text: &mut FrameText, tag: u32, moment: Moment) -> Result<(), NoMemory>
    requires tag { is_plain_tag tag ≡ true }
    requires room { length (body_of text.old) ≤ BODY_MAX }
    requires short { AreShort text.old.fields }
    ensures field { OnOk result (text.new ≡ with_field text.old (field_of tag (moment_text moment))) }
    ensures size { OnOk result (length (body_of text.new) ≤ length (body_of text.old) + FIELD_MAX) }
    ensures short { OnOk result (AreShort text.new.fields) }
    ensures read { moment_of (moment_text moment) ≡ Ok moment }
{
    put(text, tag, &moment.write())
}

// Puts a field of no more bytes than a text has.
fn put(text: &mut FrameText, tag: u32, value: &[u8]) -> Result<(), NoMemory>
    requires tag { is_plain_tag tag ≡ true }
    requires value { IsShort value.now }
    requires room { length (body_of text.old) ≤ BODY_MAX }
    requires short { AreShort text.old.fields }
    ensures field { OnOk result (text.new ≡ with_field text.old (field_of tag value.now)) }
    ensures size { OnOk result (length (body_of text.new) ≤ length (body_of text.old) + FIELD_MAX) }
    ensures short { OnOk result (AreShort text.new.fields) }
{
    match text.put(tag, value) {
        Ok(()) => Ok(()),
        Err(fault) => Err(out_of_memory(fault)),
    }
}

// A field that isn't refused fails only out of memory.
fn out_of_memory(_fault: WriteFault) -> NoMemory
    requires { _fault ≡ WriteFault.NoMemory }
{
    NoMemory
}

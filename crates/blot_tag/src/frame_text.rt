//! Messages in the making.
ghost use Rattle.std.specs.Prelude.{◌≡◌, ℕ, ◌^◌, ◌<◌, ◌≤◌, ◌++◌, List, length, map, Ok, None, IfOk, IfErr, OnOk, OnErr};
ghost use Rattle.std.specs.Option.{option_eq};
ghost use Rattle.std.specs.Result.{result_err};
ghost use Rattle.blot_tag.specs.Fields.{field_of, fields_of};
ghost use Rattle.blot_tag.specs.FieldText.{field_text, BeginsWith};
ghost use Rattle.blot_tag.specs.Frames.{IsFrame};
ghost use Rattle.blot_tag.specs.Walking.{walk_of, takes};
ghost use Rattle.blot_tag.specs.Writing.{Written, MayFollow, body_of, begun, frame_of, frame_fields, is_data_tag, has_soh, kind_field, last_field, refusal_of, with_field, IsWriteFault};
ghost use Rattle.blot_tag.specs.declared.digits.TheConstants.{TAG_DIGITS_MAX};

use crate::bytes::SOH;
use crate::look::{HEAD, SIZE_MAX, check_sum};
use crate::split::data_tag;
use crate::write_fault::WriteFault;
use itoa::Buffer;
use std::alloc::{AllocError as NoMemory, Global};
use std::marker::Model;

// MsgType.
const KIND_TAG: u32 = 35;

/// A message in the making. A contract sees it as its kind and the fields that were put.
#[derive(Drop)]
pub struct FrameText {
    alloc: Global,
    body: Vec<u8>,
    // The tag of the body's last field.
    last: u32,
}

impl Model for FrameText {
    ghost use Rattle.blot_tag.specs.Writing.{Written, written_of, IsBodyText};

    ghost Value = { Written };

    ghost view = { λ text. written_of text.body.items };

    ghost invariant = { λ text. IsBodyText text.body.items text.last };
}

impl FrameText {
    /// A message of a kind, MsgType(35), to which no field was put yet.
    pub fn new(alloc: Global, kind: &[u8]) -> Result<FrameText, WriteFault>
        requires { 0 < length kind.now }
        ensures ok { IfOk result (λ text. text ≡ begun kind.now) }
        ensures accepted { OnOk result (refusal_of 0 (kind_field kind.now) ≡ None) }
        ensures refused { IfErr result (IsWriteFault (refusal_of 0 (kind_field kind.now))) }
    {
        check(0, KIND_TAG, kind, false)?;
        let mut body = Vec::new(alloc);
        put_field(&mut body, KIND_TAG, kind)?;
        Ok(FrameText {
            alloc,
            body,
            last: KIND_TAG,
        })
    }

    /// Adds a field after the others. Data is added right after its length.
    pub fn put(&mut self, tag: u32, value: &[u8]) -> Result<(), WriteFault>
        requires { MayFollow (last_field self.old) (field_of tag value.now) }
        ensures ok { OnOk result (self.new ≡ with_field self.old (field_of tag value.now)) }
        ensures accepted { OnOk result (refusal_of (length (body_of self.old)) (field_of tag value.now) ≡ None) }

        // A refused field leaves the message as it was.
        ensures refused { IfErr result
            (IsWriteFault (refusal_of (length (body_of self.old)) (field_of tag value.now))) }
        ensures kept { OnErr result (self.new ≡ self.old) }
    {
        let is_data = data_tag(self.last) == Some(tag);
        check(self.body.len(), tag, value, is_data)?;
        put_field(&mut self.body, tag, value)?;
        self.last = tag;
        Ok(())
    }

    /// The frame of the message.
    pub fn finish(self) -> Result<Vec<u8>, NoMemory>
        ensures text { IfOk result (λ frame. frame.items ≡ frame_of self) }

        // It is one valid frame, whatever follows it, and has the fields that were put.
        ensures valid { IfOk result (λ frame. IsFrame frame.items) }
        ensures alone { IfOk result (λ frame.
            (more : List ℕ) → walk_of (frame.items ++ more) ≡ takes frame.items (walk_of more)) }
        ensures fields { IfOk result (λ frame. fields_of frame.items ≡ map Ok (frame_fields self)) }
    {
        let mut digits = Buffer::new();
        let mut frame = Vec::from_slice(self.alloc, HEAD)?;
        frame.extend_from_slice(digits.format(self.body.len()).as_bytes())?;
        frame.push(SOH)?;
        frame.extend_from_slice(&self.body)?;
        let sum = check_sum(&frame);
        frame.extend_from_slice(b"10=")?;
        frame.extend_from_slice(&sum)?;
        Ok(frame)
    }
}

// Refuses a field after so many bytes of a body.
fn check(size: usize, tag: u32, value: &[u8], is_data: bool) -> Result<(), WriteFault>
    requires small { size ≤ SIZE_MAX }
    requires tag { tag < 10 ^ TAG_DIGITS_MAX }
    requires data { is_data ≡ is_data_tag tag }
    ensures { result_err result ≡ refusal_of size (field_of tag value.now) }
{
    let before = size + Buffer::new().format(tag).len() + 2;
    if before > SIZE_MAX || value.len() > SIZE_MAX - before {
        return Err(WriteFault::TooLong);
    }
    if has_soh(value) && !is_data {
        return Err(WriteFault::SohInValue);
    }
    Ok(())
}

// Whether an SOH stands among the bytes.
fn has_soh(bytes: &[u8]) -> bool
    ensures { result ≡ has_soh bytes.now }
{
    bytes.iter().any(|byte| *byte == SOH)
}

// Adds a field at the end of a body, or leaves the body as it was.
fn put_field(body: &mut Vec<u8>, tag: u32, value: &[u8]) -> Result<(), NoMemory>
    ensures ok { OnOk result (body.new.items ≡ body.old.items ++ field_text (field_of tag value.now)) }
    ensures err { OnErr result (body.new.items ≡ body.old.items) }
{
    let size = body.len();
    if append_field(body, tag, value).is_err() {
        body.truncate(size);
        return Err(NoMemory);
    }
    Ok(())
}

// Adds a field at the end of a body, or as much of it as there is memory for.
fn append_field(body: &mut Vec<u8>, tag: u32, value: &[u8]) -> Result<(), NoMemory>
    ensures ok { OnOk result (body.new.items ≡ body.old.items ++ field_text (field_of tag value.now)) }
    ensures err { OnErr result (BeginsWith body.old.items body.new.items) }
{
    let mut digits = Buffer::new();
    body.extend_from_slice(digits.format(tag).as_bytes())?;
    body.push(b'=')?;
    body.extend_from_slice(value)?;
    body.push(SOH)?;
    Ok(())
}

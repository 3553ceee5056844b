//! A frame of given fields.
ghost use Rattle.std.specs.Prelude.{◌≡◌, ◌<◌, Ok, length, map, IfOk, IfSome, OnOk, is_some};
ghost use Rattle.blot_tag.specs.Fields.{fields_of};
ghost use Rattle.blot_tag.specs.Frames.{IsFrame};
ghost use Rattle.blot_tag.specs.Writing.{frame_fields, frame_of, kind_field};
ghost use Rattle.blot_tag.specs.declared.write_fault.WriteFault.TheVariants.{NoMemory as OutOfMemory};
ghost use Rattle.blot_diary.specs.Writing.{EachMayFollow, fields_in, fits, written};

use blot_tag::{FrameText, WriteFault};
use std::alloc::{AllocError as NoMemory, Global};

/// The frame of a kind, MsgType(35), with these fields behind it, each a tag and its value; none where they don't fit, or an SOH stands in one
/// that isn't data.
pub(crate) fn write(
    alloc: Global,
    kind: &[u8],
    fields: &[(u32, &[u8])],
) -> Result<Option<Vec<u8>>, NoMemory>
    requires kind { 0 < length kind.now }
    requires follow { EachMayFollow (kind_field kind.now) (fields_in fields.now) }
    ensures made { IfOk result (λ made. is_some made ≡ fits (written kind.now (fields_in fields.now))) }
    ensures text { IfOk result (λ made. IfSome made (λ text. text.items ≡ frame_of (written kind.now (fields_in fields.now)))) }

    // It is one valid frame, and has these fields.
    ensures valid { IfOk result (λ made. IfSome made (λ text. IsFrame text.items)) }
    ensures fields { IfOk result (λ made. IfSome made (λ text. fields_of text.items ≡ map Ok (frame_fields (written kind.now (fields_in fields.now))))) }
{
    let mut text = match FrameText::new(alloc, kind) {
        Ok(text) => text,
        Err(fault) => {
            unless_refused(fault)?;
            return Ok(None);
        }
    };
    for (tag, value) in fields {
        if let Err(fault) = text.put(*tag, value) {
            unless_refused(fault)?;
            return Ok(None);
        }
    }
    Ok(Some(text.finish()?))
}

// An error where a fault isn't a refusal, but want of memory.
fn unless_refused(fault: WriteFault) -> Result<(), NoMemory>
    ensures { OnOk result (fault ≡ OutOfMemory → ⊥) }
{
    match fault {
        WriteFault::NoMemory => Err(NoMemory),
        _ => Ok(()),
    }
}

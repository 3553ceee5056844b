//! Messages that are kept as they are.
ghost use Rattle.std.specs.Prelude.{◌≡◌, ◌↔◌, IfOk, IsTrue};
ghost use Rattle.blot_tag.specs.Views.{text_of};
ghost use Rattle.blot_diary.specs.Events.{IsPlain, keeps_message};

use crate::{Content, read_kept};
use blot_tag::{Frame, Reader};
use std::alloc::{AllocError as NoMemory, Global};

/// Whether a text is one whole frame whose message is kept, and nothing else: it has no fault, gives no command, and is none of the
/// journal's own. An error is out of memory.
pub fn is_plain(alloc: Global, text: &[u8]) -> Result<bool, NoMemory>
    ensures { IfOk result (λ plain. IsTrue plain ↔ IsPlain text.now) }
{
    let mut reader = Reader::new(alloc);
    reader.feed(text)?;
    let Some(frame) = reader.next()? else {
        return Ok(false);
    };
    if frame.text() != text {
        return Ok(false);
    }
    keeps_message(alloc, &frame)
}

// Whether a frame keeps its message, and nothing else.
fn keeps_message(alloc: Global, frame: &Frame) -> Result<bool, NoMemory>
    ensures { IfOk result (λ keeps. keeps ≡ keeps_message (text_of frame.now)) }
{
    match read_kept(alloc, frame)? {
        Some(kept) => Ok(matches!(kept.content, Content::Message)),
        None => Ok(false),
    }
}

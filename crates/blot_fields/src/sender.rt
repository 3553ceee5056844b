//! Who sends a frame.
ghost use Rattle.std.specs.Prelude.{◌≡◌};
ghost use Rattle.blot_tag.specs.Views.{items_of};
ghost use Rattle.blot_fields.specs.Sender.{sender_of};

use crate::first::first_text;
use blot_tag::Frame;
use blot_types::Text64;

/// The first field SenderCompID(49) of a frame, if it is a text. The frame may be at fault
/// elsewhere. It takes no memory.
pub fn sender_of(frame: &Frame) -> Option<Text64>
    ensures { result ≡ sender_of (items_of frame.now) }
{
    first_text(frame, 49)
}

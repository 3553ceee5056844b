//! The first field of a tag, in a frame that may be at fault elsewhere.
ghost use Rattle.std.specs.Prelude.{◌≡◌, option_map};
ghost use Rattle.blot_tag.specs.Views.{items_of};
ghost use Rattle.blot_fields.specs.First.{first_text, first_value, text_in};

use blot_tag::Frame;
use blot_types::Text64;

/// The value of the first field of a tag, where that can be split off. It takes no memory.
pub fn first_value<'a>(frame: &Frame<'a>, tag: u32) -> Option<&'a [u8]>
    ensures { option_map (λ value. value.now) result ≡ first_value tag (items_of frame.now) }
{
    for item in frame.fields() {
        let Ok(field) = item else {
            return None;
        };
        if field.tag == tag {
            return Some(field.value);
        }
    }
    None
}

/// The first field of a tag that can be split off, if it is a text. It takes no memory.
pub fn first_text(frame: &Frame, tag: u32) -> Option<Text64>
    ensures { result ≡ first_text tag (items_of frame.now) }
{
    match first_value(frame, tag) {
        Some(value) => text_in(value),
        None => None,
    }
}

// These bytes, if they are a text.
fn text_in(bytes: &[u8]) -> Option<Text64>
    ensures { result ≡ text_in bytes.now }
{
    Text64::read(bytes)
}

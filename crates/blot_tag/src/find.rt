//! The first place where a frame begins.
ghost use Rattle.std.specs.Prelude.{◌≤◌, length};
ghost use Rattle.blot_tag.specs.Finding.{IsFound, IsNextStart};

use crate::bytes::find_byte;
use crate::look::{Miss, look};
use crate::sums::Summed;

/// Where a frame begins, or a part of one that reaches to the end of the text.
#[derive(Clone, Copy)]
pub(crate) struct Found {
    pub(crate) place: usize,
    /// The frame's length; none for a part.
    pub(crate) length: Option<usize>,
}

// The next place at which a frame could begin.
fn next_start(text: &[u8], start: usize) -> usize
    requires { start ≤ length text.now }
    ensures { IsNextStart text.now start result }
{
    match find_byte(b'8', &text[start..]) {
        Some(further) => start + further,
        None => text.len(),
    }
}

/// The first frame, or part of one that reaches to the end of the text.
pub(crate) fn find(text: &[u8]) -> Found
    ensures { IsFound text.now result }
{
    let mut place = 0;
    let mut known = Summed::empty();
    loop {
        match look(text, place, &mut known) {
            Ok(length) => {
                return Found {
                    place,
                    length: Some(length),
                };
            }
            Err(Miss::Partial) => {
                return Found {
                    place,
                    length: None,
                };
            }
            Err(Miss::Neither) => place = next_start(text, place + 1),
        }
    }
}

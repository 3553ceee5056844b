//! The frames of a stream.
ghost use Rattle.std.specs.Prelude.{◌≡◌, ◌↔◌, ◌≤◌, [], ◌++◌, length, drop, slice_get, vec_len, IsOk, IfOk, IfSome, OnOk, OnErr, option_map};
ghost use Rattle.blot_tag.specs.Views.{text_of};
ghost use Rattle.blot_tag.specs.Frames.{IsFrame};
ghost use Rattle.blot_tag.specs.Walking.{Walk, IsWalk, walk_of, first_frame, joined_with};

use crate::buffer::Buffer;
use crate::frame::Frame;
use std::alloc::{AllocError as NoMemory, Global};
use std::marker::Model;

/// The bytes of a stream that are still unread, and how many were passed over. It finds the valid
/// frames of a stream however the stream is cut into pieces. FIX 4.4 volume 2, "Message recovery":
/// what isn't a valid frame is passed over.
#[derive(Drop)]
pub struct Reader {
    buffer: Buffer,
}

impl Model for Reader {
    ghost use Rattle.blot_tag.specs.Reading.{Reading};
    ghost use Rattle.blot_tag.specs.Buffers.{reading_of};

    ghost Value = { Reading };

    ghost view = { λ reader. reading_of reader.buffer };
}

impl Reader {
    ghost use Rattle.std.specs.Borrow.{sem};
    ghost use Rattle.std.specs.Io.BufRead.{Rests};
    ghost use Rattle.blot_tag.specs.Reading.{Leaves, fed};
    ghost use Rattle.blot_tag.specs.contracts.reader.Reader.{the_row};

    /// A reader of a stream from its first byte on.
    pub fn new(alloc: Global) -> Reader
        ensures unread { result.unread ≡ [] }
        ensures skipped { result.skipped ≡ 0 }
    {
        Reader {
            buffer: Buffer {
                bytes: Vec::new(alloc),
                start: 0,
                skipped: 0,
            },
        }
    }

    /// Adds a piece of the stream at the end of the unread bytes. The walk over them goes on from the rest
    /// of the earlier one, so it doesn't matter where a stream is cut.
    pub fn feed(&mut self, piece: &[u8]) -> Result<(), NoMemory>
        ensures ok { OnOk result (self.new ≡ fed self.old piece.now) }
        ensures err { OnErr result (self.new ≡ self.old) }
        ensures cut { walk_of (self.old.unread ++ piece.now) ≡ joined_with (walk_of self.old.unread) piece.now }
        ensures walk { (walk : Walk) → IsWalk self.new.unread walk ↔ (walk ≡ walk_of self.new.unread) }
    {
        self.buffer.extend(piece)
    }

    /// Takes the first frame of the unread bytes, and leaves those after it. Where there is no frame it
    /// gives none, and what could become one with more bytes stays unread. The frame borrows its text from the
    /// reader. It takes no memory, so there is never an error.
    pub fn next(&mut self) -> Result<Option<Frame<'_>>, NoMemory>
        ensures ok { IsOk result }
        ensures first { IfOk result (λ frame. option_map text_of frame ≡ first_frame self.old.unread) }
        ensures valid { IfOk result (λ found. IfSome found (λ frame. IsFrame (text_of frame))) }
        ensures* leaves { sem 𝓛 (Rests the_row self.entry (Leaves self.old result)) }
    {
        let span = self.buffer.advance();
        Ok(self.buffer.frame_at(span))
    }

    /// The frame that `next` would give, which stays unread. It takes no memory either.
    pub fn peek(&mut self) -> Result<Option<Frame<'_>>, NoMemory>
        ensures ok { IsOk result }
        ensures first { IfOk result (λ frame. option_map text_of frame ≡ first_frame self.old.unread) }
        ensures valid { IfOk result (λ found. IfSome found (λ frame. IsFrame (text_of frame))) }
        ensures* leaves { sem 𝓛 (Rests the_row self.entry (λ new. new ≡ self.old)) }
    {
        let span = self.buffer.peek();
        Ok(self.buffer.frame_at(span))
    }

    /// How many bytes `next` has passed over so far: those before the last frame that it gave or, where it
    /// last gave `None`, those before the rest. The count stays at `u64::MAX`.
    pub fn skipped(&self) -> u64
        ensures { result ≡ self.now.skipped }
    {
        self.buffer.skipped
    }
}

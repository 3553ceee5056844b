//! The bytes that a reader holds.
ghost use Rattle.std.specs.Prelude.{◌≡◌, ℕ, ◌+◌, ◌*◌, ◌≤◌, length, drop, unwrap_or, vec_len, IfSome, OnOk, OnErr, option_map};
ghost use Rattle.blot_tag.specs.Frames.{IsFrame};
ghost use Rattle.blot_tag.specs.Reading.{Advances, fed};
ghost use Rattle.blot_tag.specs.Views.{text_of};
ghost use Rattle.blot_tag.specs.Walking.{first_frame};

use crate::find::{Found, find};
use crate::frame::Frame;
use std::alloc::AllocError as NoMemory;

/// The bytes of a stream from some place on: first those that were read, and then the unread ones.
#[derive(Drop)]
pub(crate) struct Buffer {
    pub(crate) bytes: Vec<u8>,
    /// The first `start` bytes were taken or passed over.
    pub(crate) start: usize,
    pub(crate) skipped: u64,
    pub(crate) ghost in_range: { start ≤ vec_len bytes },
}

/// Where a frame stands among the bytes of a buffer.
#[derive(Clone, Copy)]
pub(crate) struct Span {
    pub(crate) start: usize,
    pub(crate) length: usize,
}

// Drops the first `count` bytes.
fn drop_front(bytes: &mut Vec<u8>, count: usize)
    requires { count ≤ vec_len bytes.old }
    ensures { bytes.new.items ≡ drop count bytes.old.items }
{
    let rest = bytes.len() - count;
    bytes.copy_within(count.., 0);
    bytes.truncate(rest);
}

impl Buffer {
    ghost use Rattle.blot_tag.specs.Buffers.{reading_of, bytes_at, IsWithin, span_of, behind_found};

    /// Adds a piece at the end of the unread bytes. Where those that were read are at least as many, they are given up,
    /// and the unread ones move to the front. So no more bytes are held than twice the unread ones.
    pub(crate) fn extend(&mut self, piece: &[u8]) -> Result<(), NoMemory>
        ensures ok { OnOk result (reading_of self.new ≡ fed (reading_of self.old) piece.now) }
        ensures err { OnErr result (reading_of self.new ≡ reading_of self.old) }
        ensures held { vec_len self.new.bytes ≤ 2 * length (reading_of self.new).unread }
    {
        if self.start >= self.bytes.len() - self.start {
            drop_front(&mut self.bytes, self.start);
            self.start = 0;
        }
        self.bytes.extend_from_slice(piece)?;
        Ok(())
    }

    // The first frame, or part of one, among the unread bytes.
    fn find_first(&self) -> Found
        ensures inside { result.place + unwrap_or result.length 0 ≤ length (reading_of self.now).unread }
        ensures finds { Advances (reading_of self.now) (option_map (bytes_at self.now) (span_of self.now result))
            (behind_found (reading_of self.now) result) }
    {
        find(&self.bytes[self.start..])
    }

    // Where the frame that was found stands.
    fn span_of(&self, found: Found) -> Option<Span>
        requires { found.place + unwrap_or found.length 0 ≤ length (reading_of self.now).unread }
        ensures span { result ≡ span_of self.now found }
        ensures inside { IfSome result (IsWithin self.now) }
    {
        let start = self.start + found.place;
        found.length.map(|length| Span { start, length })
    }

    /// Where the first frame stands, which stays unread.
    pub(crate) fn peek(&self) -> Option<Span>
        ensures first { option_map (bytes_at self.now) result ≡ first_frame (reading_of self.now).unread }
        ensures valid { IfSome (option_map (bytes_at self.now) result) IsFrame }
        ensures inside { IfSome result (IsWithin self.now) }
    {
        let found = self.find_first();
        self.span_of(found)
    }

    /// Takes the first frame, or passes over what can't become one. It says where the frame stands.
    pub(crate) fn advance(&mut self) -> Option<Span>
        ensures step { Advances (reading_of self.old) (option_map (bytes_at self.new) result) (reading_of self.new) }
        ensures inside { IfSome result (IsWithin self.new) }
    {
        let found = self.find_first();
        let span = self.span_of(found);
        self.start += found.place + found.length.unwrap_or(0);
        self.skipped = self.skipped.saturating_add(found.place as u64);
        span
    }

    /// The frame that stands there.
    pub(crate) fn frame_at(&self, span: Option<Span>) -> Option<Frame<'_>>
        requires inside { IfSome span (IsWithin self.now) }
        requires valid { IfSome (option_map (bytes_at self.now) span) IsFrame }
        ensures { option_map text_of result ≡ option_map (bytes_at self.now) span }
    {
        match span {
            Some(Span { start, length }) => Some(Frame::new(&self.bytes[start..start + length])),
            None => None,
        }
    }
}

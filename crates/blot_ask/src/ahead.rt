//! A stream line by line, with what is read of it ahead.
ghost use Rattle.std.specs.Prelude.{◌≡◌, ◌<◌, ◌≤◌, [], ◌++◌, List, ℕ, IfErr, IfOk, OnOk, drop, length, nat_lt, take};
ghost use Rattle.std.specs.List.{after_first, before_first, list_any, position_or_len};
ghost use Rattle.blot_ask.specs.Lines.{Refills, TakesLine, is_end, unread};

use blot_stream::{ReplayFault, read_piece};
use std::alloc::{AllocError as NoMemory, Global};
use std::io::Read;
use std::marker::Model;

// How many bytes are read at once.
const PIECE: usize = 8_192;

/// What a stream gave beyond the lines that were taken.
#[derive(Drop)]
pub(crate) struct Ahead {
    piece: Vec<u8>,
    start: usize,
    end: usize,
}

impl Model for Ahead {
    ghost use Rattle.std.specs.Prelude.{◌<◌, ◌≤◌, List, ℕ, drop, length, take};

    ghost Value = { List ℕ };

    ghost view = { λ ahead. drop ahead.start (take ahead.end ahead.piece.items) };

    ghost invariant = { λ ahead. (ahead.start ≤ ahead.end) × (ahead.end ≤ length ahead.piece.items) × (0 < length ahead.piece.items) };
}

impl Ahead {
    /// Before the first read.
    pub(crate) fn new(alloc: Global) -> Result<Ahead, NoMemory>
        ensures { IfOk result (λ ahead. ahead ≡ []) }
    {
        Ok(Ahead {
            piece: vec![in alloc; 0; PIECE]?,
            start: 0,
            end: 0,
        })
    }

    /// Takes the next line without its LF, and says whether an LF ended it. What stands behind the last LF is taken at the end of the
    /// stream, were it nothing at all. The faults are Read and NoMemory.
    pub(crate) fn next_line<R: Read>(
        &mut self,
        stream: &mut R,
        line: &mut Vec<u8>,
    ) -> Result<bool, ReplayFault>
        ensures taken { IfOk result (λ ended.
            TakesLine ended (unread self.old (R.remaining stream.old)) (unread self.new (R.remaining stream.new)) line.new.items) }
    {
        line.clear();
        for _ in 0..u64::MAX {
            if self.take_line(line)? {
                return Ok(true);
            }
            if !self.refill(stream)? {
                return Ok(false);
            }
        }
        Err(ReplayFault::Read)
    }

    // Takes what is here up to the first LF, and that too, or else all. Whether there is one.
    fn take_line(&mut self, line: &mut Vec<u8>) -> Result<bool, NoMemory>
        ensures ended { IfOk result (λ ended. ended ≡ list_any is_end self.old) }
        ensures line { OnOk result (line.new.items ≡ line.old.items ++ before_first is_end self.old) }
        ensures left { OnOk result (self.new ≡ after_first is_end self.old) }
    {
        let held = &self.piece[..self.end][self.start..];
        let count = end_at(held);
        line.extend_from_slice(&held[..count])?;
        if count == held.len() {
            self.start = self.end;
            return Ok(false);
        }
        self.start += count + 1;
        Ok(true)
    }

    // Reads a piece, where nothing is here. False at the end of the stream.
    fn refill<R: Read>(&mut self, stream: &mut R) -> Result<bool, ReplayFault>
        requires { self.old ≡ [] }
        ensures { IfOk result (λ more. Refills more self.new (R.remaining stream.old) (R.remaining stream.new)) }
    {
        self.start = 0;
        self.end = 0;
        match read_piece(stream, &mut self.piece)? {
            Some(count) => {
                self.end = count;
                Ok(true)
            }
            None => Ok(false),
        }
    }
}

// Where the first LF stands, or the length of the text where there is none.
fn end_at(text: &[u8]) -> usize
    ensures place { result ≡ position_or_len is_end text.now }
    ensures within { result ≤ length text.now }
{
    text.iter().take_while(|byte| **byte != b'\n').count()
}

//! Texts that are read in pieces.
ghost use Rattle.std.specs.Prelude.{◌≡◌, ◌+◌, ◌≤◌, ℕ, List, [], drop, false, length, take, IsTrue, OnOk};
ghost use Rattle.blot_journal.specs.Journal.{text_in_journal};
ghost use Rattle.blot_recovery.specs.Moments.{WasRead, was_read_on};

use blot_journal::{Device, DeviceFault, Journal};

/// A text that is read in pieces, so that a long one needn't stand in memory.
pub trait Pieces {
    /// The text.
    ghost text: { Self → List ℕ };

    /// It can be read.
    ghost IsReadable: { Self → Type 0 };

    /// It was read, and is so now.
    ghost Reads: { Self → Self → Type 0 };

    /// What was read, and read on, was read.
    ghost reads_on: { (first mid last : Self) → Reads first mid → Reads mid last → Reads first last };

    /// How many bytes it has.
    fn len(&self) -> usize
        ensures { IsReadable self.now → result ≡ length (text self.now) };

    /// Reads the bytes from a place on, as many as the buffer takes.
    fn read(&mut self, at: usize, buffer: &mut [u8]) -> Result<(), DeviceFault>
        requires readable { IsReadable self.old }
        requires within { at + length buffer.old ≤ length (text self.old) }
        ensures bytes { OnOk result (buffer.new ≡ take (length buffer.old) (drop at (text self.old))) }
        ensures text { text self.new ≡ text self.old }
        ensures readable { IsReadable self.new }
        ensures reads { Reads self.old self.new };
}

/// A text in memory.
#[derive(Clone, Copy, Debug)]
pub struct InMemory<'a> {
    pub text: &'a [u8],
}

impl<'a> Pieces for InMemory<'a> {
    ghost text = { λ memory. memory.text.now };

    ghost IsReadable = { λ _. Unit {0} };

    ghost Reads = { λ _ _. Unit {0} };

    ghost reads_on = { λ _ _ _ _ _. tt };

    fn len(&self) -> usize {
        self.text.len()
    }

    fn read(&mut self, at: usize, buffer: &mut [u8]) -> Result<(), DeviceFault> {
        buffer.copy_from_slice(&self.text[at..at + buffer.len()]);
        Ok(())
    }
}

// That of a journal that nothing was appended to, and whose file can be read.
impl<D: Device> Pieces for Journal<D> {
    ghost text = { λ journal. text_in_journal D.seen journal };

    ghost Reads = { λ old new. WasRead D.seen D.moment D.left_since old new };

    ghost reads_on = { λ first mid last one two. was_read_on D.seen D.moment D.left_since first mid last one two };

    ghost IsReadable = { λ journal. (journal.is_broken ≡ false) × (journal.waiting ≡ []) × IsTrue (D.is_readable journal.device) };

    fn len(&self) -> usize {
        self.len()
    }

    fn read(&mut self, at: usize, buffer: &mut [u8]) -> Result<(), DeviceFault> {
        self.read(at, buffer)
    }
}

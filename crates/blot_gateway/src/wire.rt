//! What a session is served over: a wire, a clock and a sink.
ghost use Rattle.std.specs.Prelude.{◌≡◌, ◌<◌, ℕ, ℤ, Some, length};
ghost use Rattle.blot_fields.specs.Bringing.{brought};
ghost use Rattle.blot_tag.specs.Views.{text_of};
ghost use Rattle.blot_gateway.specs.Wires.{Answered, Did, Notice, read_by, written_by, ReadFits, WriteFits, CountsRead, CountsWrite};
ghost use Rattle.blot_gateway.specs.Wires.Notice.{Handed, HeardOf};
ghost use Rattle.blot_gateway.specs.Wires.Did.{Gave};

use blot_desk::{DeskFault, Reply};
use blot_session::Met;
use blot_tag::Frame;
use blot_time::Moment;
use blot_types::Command;

/// What a read of a wire gives.
#[derive(Clone, Copy, Debug, PartialEq, Eq)]
pub enum Reading {
    /// So many bytes came, at least 1: they stand at the front of the buffer.
    Got(usize),
    /// Nothing came in time.
    Quiet,
    /// The wire is at its end.
    End,
    /// The read failed.
    Fault,
}

/// What a write to a wire comes to.
#[derive(Clone, Copy, Debug, PartialEq, Eq)]
pub enum Writing {
    /// So many bytes were taken, at least 1, from the front of the text.
    Wrote(usize),
    /// The write failed, and took nothing.
    Fault,
}

/// A connection to a peer.
pub trait Wire {
    /// A wire, something that it does, and the wire after that.
    ghost does: { Self → Did → Self → Type 0 };

    /// How many of its reads and writes failed so far.
    ghost failures: { Self → ℕ };

    /// Reads some bytes. The buffer isn't empty.
    fn read_some(&mut self, buffer: &mut [u8]) -> Reading
        requires { 0 < length buffer.old }
        ensures gave { does self.old (Gave (read_by result buffer.new)) self.new }
        ensures within { ReadFits result (length buffer.new) }
        ensures counted { CountsRead result (failures self.old) (failures self.new) };

    /// Writes some bytes of a text, which isn't empty.
    fn write_some(&mut self, text: &[u8]) -> Writing
        requires { 0 < length text.now }
        ensures took { does self.old (written_by result text.now) self.new }
        ensures within { WriteFits result (length text.now) }
        ensures counted { CountsWrite result (failures self.old) (failures self.new) };

    /// How many of its reads and writes failed so far, as far as 2^64 - 1.
    fn faults(&self) -> u64
        ensures { result ≡ failures self.now };
}

/// What tells the moments.
pub trait Clock {
    /// A clock, a moment that it tells, and the clock after that.
    ghost ticks: { Self → ℤ → Self → Type 0 };

    /// The moment.
    fn now(&mut self) -> Moment
        ensures { ticks self.old result self.new };
}

/// What takes the commands that a session delivers.
pub trait Sink {
    /// A sink, a command with the answer to it, and the sink after that.
    ghost takes: { Self → Answered → Self → Type 0 };

    /// Takes a command.
    fn take(&mut self, command: Command) -> Result<Reply, DeskFault>
        ensures { takes self.old (record { command = command; answer = result }) self.new };
}

/// What takes the commands that a session delivers, each with the frame that brought it, and hears of the other frames.
pub trait FrameSink {
    /// A sink, a command with the answer to it or word of another frame, and the sink after that.
    ghost takes: { Self → Notice → Self → Type 0 };

    /// Takes a command, which this frame brought.
    fn take(&mut self, frame: &Frame, command: Command) -> Result<Reply, DeskFault>
        requires { brought (text_of frame.now) ≡ Some command }
        ensures { takes self.old (Handed (record { command = command; answer = result })) self.new };

    /// Hears of a frame of which no command was delivered, and what it came to, before anything is written of that.
    fn hear(&mut self, frame: &Frame, heard: Heard)
        ensures { takes self.old (HeardOf (text_of frame.now) heard) self.new };
}

/// What a frame came to of which no command was delivered, at a session that is on, or was.
#[derive(Clone, Copy, Debug, PartialEq, Eq)]
pub struct Heard {
    /// What became of it.
    pub met: Met,
    /// Whether it brought the session on, made it expect another number, or made the next number that it sends lower.
    pub is_renumbered: bool,
    /// The number that the session expects now.
    pub expected: u64,
    /// The number of the next message that the session sends, behind all that this frame comes to.
    pub next: u64,
}

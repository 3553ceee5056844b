//! Bytes in and out, a piece at a time.
ghost use Rattle.std.specs.Prelude.{◌≡◌, ◌<◌, ◌≤◌, length, take, Ok, IfNone, OnOk, OnErr, IfOk, IfErr, IfSome};
ghost use Rattle.std.specs.Io.KnownBytes.{Appends, Keeps};
ghost use Rattle.blot_stream.specs.Texts.{AppendsFront, Gives};

use crate::ReplayFault;
use std::io::{ErrorKind, Read, Write};

/// Reads a piece into the buffer: how many bytes, none at the end of the input, or 0 where the read was
/// interrupted.
pub fn read_piece<R: Read>(input: &mut R, buffer: &mut [u8]) -> Result<Option<usize>, ReplayFault>
    requires { 0 < length buffer.old }
    ensures fault { IfErr result (λ fault. fault ≡ ReplayFault.Read) }
    ensures piece { IfOk result (Gives (R.remaining input.old) (R.remaining input.new) buffer.new) }
{
    match input.read(buffer) {
        Ok(0) => Ok(None),
        Ok(count) => Ok(Some(count)),
        Err(error) => {
            if error.kind() == ErrorKind::Interrupted {
                Ok(Some(0))
            } else {
                Err(ReplayFault::Read)
            }
        }
    }
}

/// Writes a text to its end and flushes it, since what stays in a buffer isn't written. A flush that fails is a write fault.
pub fn write_text<W: Write>(output: &mut W, text: &[u8]) -> Result<(), ReplayFault>
    ensures fault { IfErr result (λ fault. fault ≡ ReplayFault.Write) }
    ensures ok { OnOk result (Appends (W.contents output.old) (W.contents output.new) text.now) }
    ensures err { OnErr result (AppendsFront (W.contents output.old) (W.contents output.new) text.now) }
{
    write_all(output, text)?;
    flush(output)
}

// Writes a text to its end.
fn write_all<W: Write>(output: &mut W, text: &[u8]) -> Result<(), ReplayFault>
    ensures fault { IfErr result (λ fault. fault ≡ ReplayFault.Write) }
    ensures ok { OnOk result (Appends (W.contents output.old) (W.contents output.new) text.now) }
    ensures err { OnErr result (AppendsFront (W.contents output.old) (W.contents output.new) text.now) }
{
    let mut written = 0;
    for _ in 0..u64::MAX {
        if written == text.len() {
            return Ok(());
        }
        let Ok(count) = write_piece(output, &text[written..]) else {
            return Err(ReplayFault::Write);
        };
        written += count;
    }
    Err(ReplayFault::Write)
}

/// Writes some of a text, again where that was interrupted: how many bytes, at least 1, or none where the write failed.
pub fn write_retrying<W: Write>(output: &mut W, text: &[u8]) -> Option<usize>
    requires { 0 < length text.now }
    ensures within { IfSome result (λ count. (1 ≤ count) × (count ≤ length text.now)) }
    ensures some { IfSome result (λ count. Appends (W.contents output.old) (W.contents output.new) (take count text.now)) }
    ensures none { IfNone result (Keeps (W.contents output.old) (W.contents output.new)) }
{
    for _ in 0..u64::MAX {
        match write_piece(output, text) {
            Ok(0) => {}
            Ok(count) => return Some(count),
            Err(_) => return None,
        }
    }
    None
}

// Flushes an output, again where that was interrupted.
fn flush<W: Write>(output: &mut W) -> Result<(), ReplayFault>
    ensures fault { IfErr result (λ fault. fault ≡ ReplayFault.Write) }
    ensures kept { Keeps (W.contents output.old) (W.contents output.new) }
{
    for _ in 0..u64::MAX {
        if flush_once(output)? {
            return Ok(());
        }
    }
    Err(ReplayFault::Write)
}

// Flushes an output: whether it was done, or was interrupted.
fn flush_once<W: Write>(output: &mut W) -> Result<bool, ReplayFault>
    ensures fault { IfErr result (λ fault. fault ≡ ReplayFault.Write) }
    ensures kept { Keeps (W.contents output.old) (W.contents output.new) }
{
    match output.flush() {
        Ok(()) => Ok(true),
        Err(error) => {
            if error.kind() == ErrorKind::Interrupted {
                Ok(false)
            } else {
                Err(ReplayFault::Write)
            }
        }
    }
}

// Writes some of a text: how many bytes, or 0 where the write was interrupted.
fn write_piece<W: Write>(output: &mut W, text: &[u8]) -> Result<usize, ReplayFault>
    requires { 0 < length text.now }
    ensures within { IfOk result (λ count. count ≤ length text.now) }
    ensures ok { IfOk result (λ count. Appends (W.contents output.old) (W.contents output.new) (take count text.now)) }
    ensures none { result ≡ Ok 0 → Keeps (W.contents output.old) (W.contents output.new) }
    ensures err { OnErr result (Keeps (W.contents output.old) (W.contents output.new)) }
{
    match output.write(text) {
        Ok(0) => Err(ReplayFault::Write),
        Ok(count) => Ok(count),
        Err(error) => {
            if error.kind() == ErrorKind::Interrupted {
                Ok(0)
            } else {
                Err(ReplayFault::Write)
            }
        }
    }
}

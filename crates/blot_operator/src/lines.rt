//! The lines of an input, answered as its bytes come.
ghost use Rattle.std.specs.Prelude.{◌≡◌, ◌≢◌, [], ◌∷◌, ◌++◌, nat_le, length, Err, IfOk, OnOk, OnErr, if◌then◌else◌};
ghost use Rattle.blot_console.specs.declared.parsing.TheConstants.{LINE_MAX};
ghost use Rattle.blot_operator.specs.Dialogue.{ComesOn, StopsLast, StopsOn, TellsLast};

use crate::answering::answer_line;
use crate::operated::Operated;
use blot_console::LINE_MAX;
use blot_stream::ReplayFault;
use std::alloc::{AllocError as NoMemory, Global};
use std::io::Write;

/// Takes a piece of an input after the line that has begun: each line that the piece ends is answered, up to one that closes the
/// day. True where one does.
pub(crate) fn answer_piece<D: Operated, W: Write>(
    alloc: Global,
    desk: &D,
    state: &mut D::State,
    output: &mut W,
    line: &mut Vec<u8>,
    piece: &[u8],
) -> Result<bool, ReplayFault>
    ensures ok { IfOk result (λ closed. ComesOn closed D.ways piece.now line.old.items state.old (W.contents output.old)
        line.new.items state.new (W.contents output.new)) }
    ensures err { OnErr result (StopsOn D.ways piece.now line.old.items state.old (W.contents output.old)
        state.new (W.contents output.new)) }
    ensures never_full { result ≢ Err ReplayFault.Full }
    ensures broken { result ≡ Err ReplayFault.Journal → D.IsBroken }
{
    for byte in piece {
        let closed = take_byte(alloc, desk, state, output, line, *byte)?;
        if closed {
            return Ok(true);
        }
    }
    Ok(false)
}

/// Answers the line that has begun, where the input ends there: without a byte it is none.
pub(crate) fn answer_last<D: Operated, W: Write>(
    alloc: Global,
    desk: &D,
    state: &mut D::State,
    output: &mut W,
    line: &[u8],
) -> Result<(), ReplayFault>
    ensures ok { OnOk result (TellsLast D.ways line.now state.old (W.contents output.old) state.new (W.contents output.new)) }
    ensures err { OnErr result (StopsLast D.ways line.now state.old (W.contents output.old) state.new (W.contents output.new)) }
    ensures never_full { result ≢ Err ReplayFault.Full }
    ensures broken { result ≡ Err ReplayFault.Journal → D.IsBroken }
{
    if line.is_empty() {
        return Ok(());
    }
    answer_line(alloc, desk, state, output, line)?;
    Ok(())
}

/// Adds a byte at the end of a line, unless the line is longer than `LINE_MAX` without it. An error is out of memory.
pub fn keep_byte(line: &mut Vec<u8>, byte: u8) -> Result<(), NoMemory>
    ensures { OnOk result (line.new.items ≡ (if nat_le (length line.old.items) LINE_MAX then line.old.items ++ byte ∷ [] else line.old.items)) }
{
    if line.len() <= LINE_MAX {
        line.push(byte)?;
    }
    Ok(())
}

// Takes a byte after the line that has begun: LF ends it, and it is answered. True where it closes the day.
fn take_byte<D: Operated, W: Write>(
    alloc: Global,
    desk: &D,
    state: &mut D::State,
    output: &mut W,
    line: &mut Vec<u8>,
    byte: u8,
) -> Result<bool, ReplayFault>
    ensures ok { IfOk result (λ closed. ComesOn closed D.ways (byte ∷ []) line.old.items state.old (W.contents output.old)
        line.new.items state.new (W.contents output.new)) }
    ensures err { OnErr result (StopsOn D.ways (byte ∷ []) line.old.items state.old (W.contents output.old)
        state.new (W.contents output.new)) }
    ensures never_full { result ≢ Err ReplayFault.Full }
    ensures broken { result ≡ Err ReplayFault.Journal → D.IsBroken }
{
    if byte != b'\n' {
        keep_byte(line, byte)?;
        return Ok(false);
    }
    let closed = answer_line(alloc, desk, state, output, line)?;
    line.clear();
    Ok(closed)
}

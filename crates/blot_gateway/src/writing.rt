//! What a session sends, written to a wire.
ghost use Rattle.std.specs.Prelude.{◌≡◌, ◌<◌, ◌≤◌, [], length, take, IfErr, IfOk, None, OnErr, OnOk, flat_map};
ghost use Rattle.blot_session.specs.Runs.{bytes_of};
ghost use Rattle.blot_gateway.specs.Progress.{CountsStop};
ghost use Rattle.blot_gateway.specs.Wires.{Counts};
ghost use Rattle.blot_gateway.specs.Serving.{close_in};
ghost use Rattle.blot_gateway.specs.Sending.{Writes, WritesFront, Halts};

use crate::ended::Stop;
use crate::{Wire, Writing};
use blot_session::{Action, CloseReason};

/// A write failed.
#[derive(Clone, Copy, Debug, PartialEq, Eq)]
pub(crate) struct WriteFault;

/// Writes what some actions send, in their order, and then says whether one of them ends the connection.
pub(crate) fn carry_out<W: Wire>(wire: &mut W, actions: &[Action]) -> Result<(), Stop>
    ensures ok { OnOk result (Writes W.does wire.old (flat_map bytes_of actions.now) wire.new) }
    ensures stays { OnOk result (close_in actions.now ≡ None) }
    ensures err { IfErr result (λ stop. Halts W.does stop wire.old actions.now wire.new) }
    ensures failures { W.failures wire.old ≤ W.failures wire.new }
    ensures failed { IfErr result (CountsStop (W.failures wire.old) (W.failures wire.new)) }
{
    if let Err(WriteFault) = send_all(wire, actions) {
        return Err(Stop::WriteFault);
    }
    match close_in(actions) {
        Some(reason) => Err(Stop::Closed(reason)),
        None => Ok(()),
    }
}

// The reason of the first Close among some actions.
fn close_in(actions: &[Action]) -> Option<CloseReason>
    ensures { result ≡ close_in actions.now }
{
    for action in actions {
        if let Action::Close(reason) = action {
            return Some(*reason);
        }
    }
    None
}

// Writes what some actions send, in their order.
fn send_all<W: Wire>(wire: &mut W, actions: &[Action]) -> Result<(), WriteFault>
    ensures ok { OnOk result (Writes W.does wire.old (flat_map bytes_of actions.now) wire.new) }
    ensures err { OnErr result (WritesFront W.does wire.old (flat_map bytes_of actions.now) wire.new) }
    ensures failures { W.failures wire.old ≤ W.failures wire.new }
    ensures failed { OnErr result (Counts (W.failures wire.old) (W.failures wire.new)) }
{
    for action in actions {
        send(wire, action)?;
    }
    Ok(())
}

// Writes what an action sends.
fn send<W: Wire>(wire: &mut W, action: &Action) -> Result<(), WriteFault>
    ensures ok { OnOk result (Writes W.does wire.old (bytes_of action.now) wire.new) }
    ensures err { OnErr result (WritesFront W.does wire.old (bytes_of action.now) wire.new) }
    ensures failures { W.failures wire.old ≤ W.failures wire.new }
    ensures failed { OnErr result (Counts (W.failures wire.old) (W.failures wire.new)) }
{
    match action {
        Action::Send(bytes) => write_text(wire, bytes.as_slice()),
        _ => Ok(()),
    }
}

// Writes a text to its end.
fn write_text<W: Wire>(wire: &mut W, text: &[u8]) -> Result<(), WriteFault>
    ensures ok { OnOk result (Writes W.does wire.old text.now wire.new) }
    ensures err { OnErr result (WritesFront W.does wire.old text.now wire.new) }
    ensures failures { W.failures wire.old ≤ W.failures wire.new }
    ensures failed { OnErr result (Counts (W.failures wire.old) (W.failures wire.new)) }
{
    let mut written = 0;
    while written < text.len() {
        written += write_piece(wire, &text[written..])?;
    }
    Ok(())
}

// Writes some of a text: how many bytes, at least 1.
fn write_piece<W: Wire>(wire: &mut W, text: &[u8]) -> Result<usize, WriteFault>
    requires { 0 < length text.now }
    ensures some { IfOk result (λ count. (1 ≤ count) × (count ≤ length text.now)) }
    ensures ok { IfOk result (λ count. Writes W.does wire.old (take count text.now) wire.new) }
    ensures err { OnErr result (Writes W.does wire.old [] wire.new) }
    ensures failures { W.failures wire.old ≤ W.failures wire.new }
    ensures failed { OnErr result (Counts (W.failures wire.old) (W.failures wire.new)) }
{
    match wire.write_some(text) {
        Writing::Wrote(count) => Ok(count),
        Writing::Fault => Err(WriteFault),
    }
}

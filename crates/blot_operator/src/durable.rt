//! Texts that are written once all is durable on which they may depend.
ghost use Rattle.std.specs.Prelude.{◌≡◌, ◌≢◌, ◌⊎◌, Err, OnErr, OnOk};
ghost use Rattle.std.specs.Io.KnownBytes.{Appends, Keeps};
ghost use Rattle.blot_desk.specs.Keeping.{IsSynced, IsUnwritten};
ghost use Rattle.blot_stream.specs.Texts.{AppendsFront};

use blot_desk::{Desk, Keeper};
use blot_stream::{ReplayFault, write_text};
use std::io::Write;
use std::sync::Wait;
use std::sync::ledger::Ledger;

/// Writes a text to its end and flushes it. Directly before, all that a desk keeps is made durable; where that fails, the output isn't touched,
/// and it is told as Journal. A write or a flush that fails is Write. This project's rule: what is told is durable first.
pub fn write_durable<L: Ledger, K: Keeper, W: Write>(
    rt: &impl Wait,
    desk: &Desk<L, K>,
    output: &mut W,
    text: &[u8],
) -> Result<(), ReplayFault>
    ensures ok { OnOk result (Appends (W.contents output.old) (W.contents output.new) text.now) }
    ensures err { OnErr result (AppendsFront (W.contents output.old) (W.contents output.new) text.now) }

    // Journal comes of a sync that failed, with nothing written. All else comes behind a sync that answered Ok.
    ensures durable { result ≢ Err ReplayFault.Journal → IsSynced K.events K.durable }
    ensures untouched { result ≡ Err ReplayFault.Journal → Keeps (W.contents output.old) (W.contents output.new) }
    ensures broken { result ≡ Err ReplayFault.Journal → IsUnwritten K.is_broken }
    ensures faults { OnErr result ((result ≡ Err ReplayFault.Journal) ⊎ (result ≡ Err ReplayFault.Write)) }
{
    match desk.sync(rt) {
        Ok(()) => write_text(output, text),
        Err(_) => Err(ReplayFault::Journal),
    }
}

//! What a capture's commands go to.
ghost use Rattle.std.specs.Prelude.{◌≡◌, ◌≢◌, ◌↔◌, Err, IfOk, OnOk, OnErr, length};
ghost use Rattle.blot_types.specs.declared.TheConstants.{EVENTS_MAX};
ghost use Rattle.blot_desk.specs.declared.event.Event.TheVariants.{Submit};
ghost use Rattle.blot_desk.specs.Desk.{recorded_of, step_of};

use crate::{DeskFault, Reply};
use blot_types::Command;

/// A desk, with a record or without: what a capture's commands go to.
pub trait TakesCommands {
    ghost use Rattle.blot_desk.specs.Desk.{DeskState};

    /// The book, and the events that came with the replies to them.
    ghost desk_of: { Self → DeskState };

    /// Takes a command: the reply to it. What the desk keeps of it is a copy. Where as many events came as a day has, or memory runs out,
    /// nothing changes.
    fn submit(&mut self, command: &Command) -> Result<Reply, DeskFault>
        ensures reply { IfOk result (λ reply. reply ≡ (step_of (desk_of self.old).book (Submit command.now)).reply) }
        ensures taken { OnOk result (desk_of self.new ≡ recorded_of (desk_of self.old) (Submit command.now)) }
        ensures full { (result ≡ Err DeskFault.Full) ↔ (length (desk_of self.old).history ≡ EVENTS_MAX) }
        ensures faults { result ≢ Err DeskFault.Unsettled }
        ensures unbroken { result ≢ Err DeskFault.Broken }
        ensures err { OnErr result (desk_of self.new ≡ desk_of self.old) };
}

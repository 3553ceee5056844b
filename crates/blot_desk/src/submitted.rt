//! A command that was submitted.

use crate::Reply;
use blot_places::GhostValue;
use blot_types::Command;
use std::marker::Model;

/// A command that was submitted, with the reply to it, both of which proofs alone remember. A contract sees the event with its reply.
#[derive(Drop)]
pub(crate) struct Submitted {
    pub(crate) command: GhostValue<Command>,
    pub(crate) reply: GhostValue<Reply>,
}

impl Model for Submitted {
    ghost use Rattle.blot_desk.specs.declared.event.Event.TheVariants.{Submit};
    ghost use Rattle.blot_desk.specs.declared.event.Recorded.{Recorded};

    ghost Value = { Recorded };

    ghost view = { λ submitted. record { event = Submit submitted.command.value; reply = submitted.reply.value } };
}

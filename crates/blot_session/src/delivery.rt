//! What the actions of a call deliver.
ghost use Rattle.std.specs.Prelude.{◌≡◌, is_some, option_and_then};
ghost use Rattle.std.specs.List.{list_any};
ghost use Rattle.blot_session.specs.Calls.{DeliversAlone, is_deliver};
ghost use Rattle.blot_session.specs.Runs.{DeliversJust, delivered};

use crate::Action;
use blot_types::Command;

/// The command that the actions of one call deliver: one that delivers a command is the only one.
pub fn delivered(actions: Vec<Action>) -> Option<Command>
    requires { DeliversAlone actions.items }
    ensures command { DeliversJust result actions.items }
    ensures some { list_any is_deliver actions.items ≡ is_some result }
{
    let mut actions = actions;
    command_of(actions.pop())
}

// The command that an action delivers, if it is one that does.
fn command_of(action: Option<Action>) -> Option<Command>
    ensures { result ≡ option_and_then delivered action }
{
    match action {
        Some(Action::Deliver(command)) => Some(command),
        _ => None,
    }
}

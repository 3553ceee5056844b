//! Each kind of event on the book.
ghost use Rattle.std.specs.Prelude.{◌≡◌, ◌≤◌, None, IfOk, IfErr, OnErr, if◌then◌else◌};
ghost use Rattle.blot_types.specs.Legal.{entry_refusal};
ghost use Rattle.blot_desk.specs.EarlyRefusal.{corrects_or_busts};
ghost use Rattle.blot_desk.specs.Desk.{desk_book, outcome_in, step_of, submit_of, undo_of, redo_of};

use crate::{DeskFault, Event, Reply};
use blot_command::{ApplyFault, BoxedCommand, Tables};
use blot_types::{Command, EVENTS_MAX, Refused};
use blot_undo::{StepFault, Steps};
use std::alloc::Global;

/// Takes an event, and gives the reply to it.
pub(crate) fn take(
    steps: &mut Steps<BoxedCommand>,
    alloc: Global,
    event: &Event,
) -> Result<Reply, DeskFault>
    requires { steps.old.next ≤ EVENTS_MAX }
    ensures ok { IfOk result (λ reply. outcome_in steps.new reply ≡ step_of (desk_book steps.old) event.now) }
    ensures err { OnErr result (desk_book steps.new ≡ desk_book steps.old) }
{
    match event {
        Event::Submit(command) => submit(steps, alloc, command),
        Event::Undo { newest } => Ok(undo(steps, *newest)),
        Event::Redo => redo(steps),
        Event::AskOrder(order) => Ok(Reply::Order(steps.state().order(order))),
        Event::AskPosition(account, symbol) => {
            Ok(Reply::Position(steps.state().position(account, symbol)))
        }
    }
}

/// Takes a command, or refuses it; a Correct or a Bust before it is copied. The book keeps a copy, on the heap, which moves as a pointer.
pub(crate) fn submit(
    steps: &mut Steps<BoxedCommand>,
    alloc: Global,
    command: &Command,
) -> Result<Reply, DeskFault>
    requires { steps.old.next ≤ EVENTS_MAX }
    ensures ok { IfOk result (λ reply. outcome_in steps.new reply ≡ submit_of (desk_book steps.old) command.now) }
    ensures fault { IfErr result (λ fault. fault ≡ DeskFault.NoMemory) }
    ensures err { OnErr result (desk_book steps.new ≡ desk_book steps.old) }
{
    if let Some(reason) = early_refusal(steps.state(), command) {
        return Ok(Reply::Refused(reason));
    }
    let Ok(own) = BoxedCommand::copy_of(alloc, command) else {
        return Err(DeskFault::NoMemory);
    };
    apply(steps, own)
}

// Takes a command as the next step, or refuses it.
fn apply(steps: &mut Steps<BoxedCommand>, command: BoxedCommand) -> Result<Reply, DeskFault>
    requires { steps.old.next ≤ EVENTS_MAX }
    ensures ok { IfOk result (λ reply. outcome_in steps.new reply ≡ submit_of (desk_book steps.old) command) }
    ensures fault { IfErr result (λ fault. fault ≡ DeskFault.NoMemory) }
    ensures err { OnErr result (desk_book steps.new ≡ desk_book steps.old) }
{
    match steps.apply(command) {
        Ok(number) => Ok(Reply::Accepted(number)),
        Err(StepFault::Refused(back, fault)) => {
            drop(back);
            match fault {
                ApplyFault::Refused(reason) => Ok(Reply::Refused(reason)),
                ApplyFault::NoMemory => Err(DeskFault::NoMemory),
            }
        }
        Err(StepFault::NoMemory(back)) => {
            drop(back);
            Err(DeskFault::NoMemory)
        }
    }
}

// Why the book refuses a Correct or a Bust, which a few look-ups tell. A Trade is hardly ever refused, and to ask of what allocates or
// withdraws can cost more than its copy: those are refused by their own steps.
fn early_refusal(tables: &Tables, command: &Command) -> Option<Refused>
    ensures { result ≡ (if corrects_or_busts command.now then entry_refusal tables.now.list command.now else None) }
{
    match command {
        Command::Correct(_) | Command::Bust(_) => tables.refusal(command),
        Command::Trade(_)
        | Command::AllocNew(_)
        | Command::AllocReplace(_)
        | Command::AllocCancel(_)
        | Command::Withdraw(_) => None,
    }
}

// Undoes the newest step, where it has this number.
fn undo(steps: &mut Steps<BoxedCommand>, newest: u64) -> Reply
    ensures { outcome_in steps.new result ≡ undo_of (desk_book steps.old) newest }
{
    match steps.newest() {
        None => Reply::Refused(Refused::NothingToUndo),
        Some(number) if number != newest => Reply::Refused(Refused::Moved(number)),
        Some(number) => {
            steps.undo();
            Reply::Undone(number)
        }
    }
}

// Does the step that was undone last again.
fn redo(steps: &mut Steps<BoxedCommand>) -> Result<Reply, DeskFault>
    ensures ok { IfOk result (λ reply. outcome_in steps.new reply ≡ redo_of (desk_book steps.old)) }
    ensures err { OnErr result (desk_book steps.new ≡ desk_book steps.old) }
{
    match steps.redo() {
        Ok(Some(number)) => Ok(Reply::Redone(number)),
        Ok(None) => Ok(Reply::Refused(Refused::NothingToRedo)),
        Err(_) => Err(DeskFault::NoMemory),
    }
}

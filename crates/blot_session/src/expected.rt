//! The message with the expected number: one row of the session's table for each type.
ghost use Rattle.std.specs.Prelude.{◌≡◌, ◌≤◌};
ghost use Rattle.blot_fields.specs.declared.TheConstants.{SEQUENCE_MAX};
ghost use Rattle.blot_session.specs.Rows.{admin_row, alloc_id_of, body_row, expected_row, gap_fill_row, other_row, report_row, resend_row};

use crate::outbound::Outbound;
use crate::row::Row;
use crate::state::{Awaited, State};
use crate::{CloseReason, tags};
use blot_fields::{Admin, Allocation, Body, FieldFault, Head, Message, Report};
use blot_types::Text64;

/// What a session does about the expected message, without a fault or with one.
#[tactic(auto, unfolding(crate::specs::Rows::expected_row))]
pub(crate) fn expected_row(state: State, head: &Head, said: &Result<Message, FieldFault>) -> Row
    requires { state.expected ≤ SEQUENCE_MAX }
    ensures { result ≡ expected_row state head.now said.now }
{
    match said {
        Ok(message) => body_row(state, head, &message.body),
        Err(fault) => {
            let reject = Outbound::Reject {
                number: head.number,
                tag: fault.tag,
                reason: fault.reason.number(),
            };
            Row::sends(reject, state.counted())
        }
    }
}

// A message without a fault.
#[tactic(auto, unfolding(crate::specs::Rows::body_row))]
fn body_row(state: State, head: &Head, body: &Body) -> Row
    requires { state.expected ≤ SEQUENCE_MAX }
    ensures { result ≡ body_row state head.now body.now }
{
    match body {
        Body::Admin(message) => admin_row(state, head.number, message),
        Body::Report(report) => report_row(state, report),
        Body::Allocation(allocation) => {
            Row::delivers(Awaited::Allocation(alloc_id_of(allocation)), state)
        }
        Body::Other => other_row(state, head.number, head.kind.owned()),
    }
}

// A message of the session layer.
#[tactic(auto, unfolding(crate::specs::Rows::admin_row))]
fn admin_row(state: State, number: u64, message: &Admin) -> Row
    requires { state.expected ≤ SEQUENCE_MAX }
    ensures { result ≡ admin_row state number message.now }
{
    match message {
        Admin::Logon { .. } | Admin::Heartbeat | Admin::Reject => Row::silent(state.counted()),
        Admin::TestRequest { id } => {
            let id = Some(id.owned());
            Row::sends(Outbound::Heartbeat { id }, state.counted())
        }
        Admin::ResendRequest { begin, .. } => resend_row(state, number, *begin),
        Admin::SequenceReset { new_number, .. } => gap_fill_row(state, number, *new_number),
        Admin::Logout => {
            Row::sends(Outbound::Logout, state.counted()).closing(CloseReason::LoggedOut)
        }
    }
}

// What is asked for again is covered by one gap fill, if any of it was sent.
#[tactic(auto, unfolding(crate::specs::Rows::resend_row))]
fn resend_row(state: State, number: u64, begin: u64) -> Row
    requires { state.expected ≤ SEQUENCE_MAX }
    ensures { result ≡ resend_row state number begin }
{
    if begin < state.next {
        return Row::sends(Outbound::GapFill { begin }, state.counted());
    }
    Row::sends(
        Outbound::incorrect(number, tags::BEGIN_SEQ_NO),
        state.counted(),
    )
}

// A gap fill names a number above the expected one.
#[tactic(auto, unfolding(crate::specs::Rows::gap_fill_row))]
fn gap_fill_row(state: State, number: u64, new_number: u64) -> Row
    ensures { result ≡ gap_fill_row state number new_number }
{
    if new_number <= state.expected {
        return Row::sends(Outbound::incorrect(number, tags::NEW_SEQ_NO), state);
    }
    Row::silent(state.expecting(new_number))
}

// An Execution Report: one that isn't about a fill leaves the book alone.
#[tactic(auto, unfolding(crate::specs::Rows::report_row))]
fn report_row(state: State, report: &Report) -> Row
    requires { state.expected ≤ SEQUENCE_MAX }
    ensures { result ≡ report_row state report.now }
{
    match report {
        Report::Other => Row::silent(state.counted()),
        _ => Row::delivers(Awaited::Report, state),
    }
}

// AllocID.
fn alloc_id_of(allocation: &Allocation) -> Text64
    ensures { result ≡ alloc_id_of allocation.now }
{
    match allocation {
        Allocation::New { id, .. } => id.owned(),
        Allocation::Replace { id, .. } => id.owned(),
        Allocation::Cancel { id, .. } => id.owned(),
    }
}

// A message of a type that the blotter doesn't know; a Business Message Reject isn't answered.
#[tactic(auto, unfolding(crate::specs::Rows::other_row))]
fn other_row(state: State, number: u64, kind: Text64) -> Row
    requires { state.expected ≤ SEQUENCE_MAX }
    ensures { result ≡ other_row state number kind }
{
    if kind.bytes() == b"j".as_slice() {
        return Row::silent(state.counted());
    }
    Row::sends(Outbound::Unsupported { number, kind }, state.counted())
}

//! The answer to a line of an operator.
ghost use Rattle.std.specs.Prelude.{◌≡◌, ◌≢◌, ◌⊎◌, ◌<◌, ◌^◌, None, IsOk, OnOk, OnErr, IfErr, IfOk, Ok, Err};
ghost use Rattle.blot_types.specs.declared.command.Command.TheVariants.{Withdraw};
ghost use Rattle.blot_desk.specs.declared.event.Event.TheVariants.{Submit};
ghost use Rattle.blot_console.specs.Answers.{CanBeTold};
ghost use Rattle.blot_console.specs.Parsing.{parsed};
ghost use Rattle.blot_operator.specs.Asking.{AsksFor, withdrawal_text};
ghost use Rattle.blot_operator.specs.Dialogue.{AnswersEvent, AnswersMine, AnswersAsk, AnswersLine, AnswersOrders, AnswersPositions, AnswersReport, Declines, TellsLine, StopsAtLine};
ghost use Rattle.blot_operator.specs.OpenDay.{AsksDay, closes_by, day_ask_by, is_closed};
ghost use Rattle.blot_operator.specs.Operating.{asked_by, with_key};

use crate::operated::{Declined, Operated};
use blot_console::{Answer, Ask, LineFault, answer_text, parse_line};
use blot_desk::{DeskFault, Event, Reply};
use blot_report::{day_lines, order_lines, position_lines};
use blot_stream::ReplayFault;
use blot_time::Day;
use blot_types::{Command, OrderKey, Text64};
use std::alloc::{AllocError as NoMemory, Global};
use std::io::Write;

// What an event asks for by a key.
#[derive(Drop)]
enum Asked {
    Order(OrderKey),
    Position(Text64, Text64),
    Nothing,
}

/// Answers a line, without its end: it is taken, and its answer is written and flushed. True where it closes the day.
pub(crate) fn answer_line<D: Operated, W: Write>(
    alloc: Global,
    desk: &D,
    state: &mut D::State,
    output: &mut W,
    line: &[u8],
) -> Result<bool, ReplayFault>
    ensures ok { OnOk result (TellsLine D.ways state.old line.now state.new (W.contents output.old) (W.contents output.new)) }
    ensures closed { IfOk result (λ closed. closed ≡ closes_by D.ways.is_open line.now) }
    ensures durable { OnOk result D.IsDurable }
    ensures err { OnErr result (StopsAtLine D.ways state.old line.now state.new (W.contents output.old) (W.contents output.new)) }
    ensures never_full { result ≢ Err ReplayFault.Full }
    ensures broken { result ≡ Err ReplayFault.Journal → D.IsBroken }
{
    let answer = answer_to(alloc, desk, state, line)?;
    let text = answer_text(alloc, &answer)?;
    desk.tell(output, &text)?;
    Ok(is_closed(&answer))
}

// Whether an answer is that the day is closed.
fn is_closed(answer: &Answer) -> bool
    ensures { result ≡ is_closed answer.now }
{
    matches!(answer, Answer::Closed)
}

// What a line comes to: its day answers it, an event is taken, a report is made, or a fault is told. An error comes only where the line
// asks something.
fn answer_to<D: Operated>(
    alloc: Global,
    desk: &D,
    state: &mut D::State,
    line: &[u8],
) -> Result<Answer, ReplayFault>
    ensures ok { IfOk result (λ answer. AnswersLine D.ways state.old line.now answer state.new) }
    ensures tellable { IfOk result CanBeTold }
    ensures err { OnErr result (state.new ≡ state.old) }
    ensures err_of_an_ask { OnErr result (AsksDay (day_ask_by D.ways.is_open line.now) ⊎ IsOk (parsed line.now)) }
    ensures never_full { result ≢ Err ReplayFault.Full }
    ensures broken { result ≡ Err ReplayFault.Journal → D.IsBroken }
{
    if let Some(answer) = desk.day_answer(alloc, line)? {
        return Ok(answer);
    }
    match parse_line(alloc, line) {
        Ok(ask) => answer_ask(alloc, desk, state, ask, line),
        Err(LineFault::NoMemory) => Err(ReplayFault::NoMemory),
        Err(fault) => Ok(Answer::Bad(fault)),
    }
}

// What an ask comes to, which a line says.
fn answer_ask<D: Operated>(
    alloc: Global,
    desk: &D,
    state: &mut D::State,
    ask: Ask,
    line: &[u8],
) -> Result<Answer, ReplayFault>
    requires { parsed line.now ≡ Ok ask }
    ensures ok { IfOk result (λ answer. AnswersAsk D.ways state.old (Ok ask) answer state.new) }
    ensures tellable { IfOk result CanBeTold }
    ensures err { OnErr result (state.new ≡ state.old) }
    ensures never_full { result ≢ Err ReplayFault.Full }
    ensures broken { result ≡ Err ReplayFault.Journal → D.IsBroken }
{
    match ask {
        Ask::Step(event) => answer_event(alloc, desk, state, event, line),
        Ask::Report(day) => Ok(report(alloc, desk, state, day)?),
        Ask::Mine => withdraw_newest(alloc, desk, state),
        Ask::Look(question) => Ok(desk.look(state, &question)?),
        Ask::Orders(peer) => Ok(orders(alloc, desk, state, &peer)?),
        Ask::Positions(account) => Ok(positions(alloc, desk, state, &account)?),
    }
}

// Withdraws the newest entry, where there is one. What is kept of it is the line of that withdrawal.
fn withdraw_newest<D: Operated>(
    alloc: Global,
    desk: &D,
    state: &mut D::State,
) -> Result<Answer, ReplayFault>
    ensures ok { IfOk result (λ answer. AnswersMine D.ways state.old (D.ways.newest state.old) answer state.new) }
    ensures tellable { IfOk result CanBeTold }
    ensures err { OnErr result (state.new ≡ state.old) }
    ensures never_full { result ≢ Err ReplayFault.Full }
    ensures broken { result ≡ Err ReplayFault.Journal → D.IsBroken }
{
    let Some(number) = desk.newest(state) else {
        return Ok(Answer::Nothing);
    };
    let line = withdrawal_line(alloc, number)?;
    answer_event(
        alloc,
        desk,
        state,
        Event::Submit(Command::Withdraw(number)),
        &line,
    )
}

// The line that withdraws the entry of a number. An error is out of memory.
fn withdrawal_line(alloc: Global, number: u64) -> Result<Vec<u8>, NoMemory>
    ensures text { IfOk result (λ line. line.items ≡ withdrawal_text number) }

    // It asks for this, as a number has nine digits at most.
    ensures asks { number < 10 ^ 9 → IfOk result (λ line. parsed line.items ≡ Ok (Ask.Step (Submit (Withdraw number)))) }
{
    let line = format!(in alloc; "withdraw\t{number}")?;
    Ok(line.into_bytes())
}

// Takes an event, for which this line asks: the reply to it, that no more events are taken, or that the line can't be kept. An error comes
// only where the desk has no answer: memory ran out, or what keeps its events can't be written. No step answers Unsettled.
fn answer_event<D: Operated>(
    alloc: Global,
    desk: &D,
    state: &mut D::State,
    event: Event,
    line: &[u8],
) -> Result<Answer, ReplayFault>
    requires { AsksFor line.now event }
    ensures ok { IfOk result (λ answer. AnswersEvent D.ways state.old event answer state.new) }
    ensures tellable { IfOk result CanBeTold }
    ensures err { OnErr result (state.new ≡ state.old) }
    ensures declined { IfErr result (λ fault. Declines D.ways state.old event fault state.new) }
    ensures never_full { result ≢ Err ReplayFault.Full }
    ensures broken { result ≡ Err ReplayFault.Journal → D.IsBroken }
{
    let asked = asked_by(&event);
    match desk.step(alloc, state, event, line) {
        Ok(reply) => Ok(with_key(&asked, &reply)),
        Err(Declined::Unkept) => Ok(Answer::Bad(LineFault::TooLong)),
        Err(Declined::Desk(DeskFault::Full)) => Ok(Answer::Full),
        Err(Declined::Desk(DeskFault::Broken)) => Err(ReplayFault::Journal),
        Err(Declined::Desk(DeskFault::NoMemory | DeskFault::Unsettled)) => Err(
            ReplayFault::NoMemory,
        ),
    }
}

// What an event asks for by a key.
fn asked_by(event: &Event) -> Asked
    ensures { result ≡ asked_by event.now }
{
    match event {
        Event::AskOrder(order) => Asked::Order(*order),
        Event::AskPosition(account, symbol) => Asked::Position(*account, *symbol),
        _ => Asked::Nothing,
    }
}

// A reply, with the key that was asked for.
fn with_key(asked: &Asked, reply: &Reply) -> Answer
    ensures { result ≡ with_key asked.now reply.now }
{
    match (asked, reply) {
        (Asked::Order(order), Reply::Order(line)) => Answer::Order(*order, *line),
        (Asked::Position(account, symbol), Reply::Position(line)) => {
            Answer::Position(*account, *symbol, *line)
        }
        _ => Answer::Replied(*reply),
    }
}

// The report of a day.
fn report<D: Operated>(
    alloc: Global,
    desk: &D,
    state: &D::State,
    day: Day,
) -> Result<Answer, NoMemory>
    ensures ok { IfOk result (λ answer. AnswersReport D.ways state.now day answer) }
    ensures tellable { IfOk result CanBeTold }
{
    let snapshot = desk.snapshot(state)?;
    Ok(Answer::Report(day_lines(alloc, &snapshot, day)?))
}

// The lines of all orders, or of those of a peer.
fn orders<D: Operated>(
    alloc: Global,
    desk: &D,
    state: &D::State,
    peer: &Option<Text64>,
) -> Result<Answer, NoMemory>
    ensures ok { IfOk result (λ answer. AnswersOrders D.ways state.now peer.now answer) }
    ensures tellable { IfOk result CanBeTold }
{
    let snapshot = desk.snapshot(state)?;
    Ok(Answer::Orders(order_lines(alloc, &snapshot, peer)?))
}

// The lines of all positions, or of those of an account.
fn positions<D: Operated>(
    alloc: Global,
    desk: &D,
    state: &D::State,
    account: &Option<Text64>,
) -> Result<Answer, NoMemory>
    ensures ok { IfOk result (λ answer. AnswersPositions D.ways state.now account.now answer) }
    ensures tellable { IfOk result CanBeTold }
{
    let snapshot = desk.snapshot(state)?;
    Ok(Answer::Positions(position_lines(alloc, &snapshot, account)?))
}

//! What a message asks of the book.
ghost use Rattle.std.specs.Prelude.{◌≡◌, IfOk, map};
ghost use Rattle.blot_fields.specs.Commands.{size_of, day_of_execution, fill_of, exec_of, alloc_of, line_of, terms_of, command_of_report, command_of_allocation, command_of};

use crate::{
    Allocation, AllocationLine, AllocationTerms, Body, Execution, Message, OrderSize, Report, Text,
};
use blot_decimal::QtySum;
use blot_time::{Day, Moment};
use blot_types::{
    AllocCancel, AllocKey, AllocNew, AllocReplace, Bust, Command, Correct, ExecKey, Fill, Items,
    Line, OrderKey, Terms, Text64, Trade,
};
use std::alloc::{AllocError as NoMemory, Global};

/// The command that a peer's message gives the book; none for a message that leaves the book alone. An
/// error is out of memory: the lists of an allocation take memory.
pub fn command_of(
    alloc: Global,
    message: &Message,
    peer: &Text64,
) -> Result<Option<Command>, NoMemory>
    ensures { IfOk result (λ command. command ≡ command_of message.now peer.now) }
{
    match &message.body {
        Body::Report(report) => Ok(command_of_report(report, message.head.sending, peer)),
        Body::Allocation(allocation) => {
            let command = command_of_allocation(alloc, peer, allocation)?;
            Ok(Some(command))
        }
        _ => Ok(None),
    }
}

/// The command that a peer's Execution Report, sent at this moment, gives the book; none for one that leaves the book
/// alone. It takes no memory.
pub fn command_of_report(report: &Report, sending: Moment, peer: &Text64) -> Option<Command>
    ensures { result ≡ command_of_report peer.now sending report.now }
{
    match report {
        Report::Trade(execution) => Some(Command::Trade(Trade {
            key: exec_of(peer, &execution.id),
            fill: fill_of(peer, sending, execution),
        })),
        Report::Correct {
            reference,
            execution,
        } => Some(Command::Correct(Correct {
            key: exec_of(peer, &execution.id),
            reference: exec_of(peer, reference),
            fill: fill_of(peer, sending, execution),
        })),
        Report::Bust { id, reference } => Some(Command::Bust(Bust {
            key: exec_of(peer, id),
            reference: exec_of(peer, reference),
        })),
        Report::Other => None,
    }
}

// The command of a peer's Allocation Instruction.
fn command_of_allocation(
    alloc: Global,
    peer: &Text64,
    allocation: &Allocation,
) -> Result<Command, NoMemory>
    ensures { IfOk result (λ command. command ≡ command_of_allocation peer.now allocation.now) }
{
    match allocation {
        Allocation::New { id, terms } => {
            let terms = terms_of(alloc, peer, terms)?;
            Ok(Command::AllocNew(AllocNew {
                key: alloc_of(peer, id),
                terms,
            }))
        }
        Allocation::Replace {
            id,
            reference,
            terms,
        } => {
            let terms = terms_of(alloc, peer, terms)?;
            Ok(Command::AllocReplace(AllocReplace {
                key: alloc_of(peer, id),
                reference: alloc_of(peer, reference),
                terms,
            }))
        }
        Allocation::Cancel { id, reference } => Ok(Command::AllocCancel(AllocCancel {
            key: alloc_of(peer, id),
            reference: alloc_of(peer, reference),
        })),
    }
}

// What an allocation books: its executions are the peer's.
fn terms_of(alloc: Global, peer: &Text64, terms: &AllocationTerms) -> Result<Terms, NoMemory>
    ensures { IfOk result (λ books. books ≡ terms_of peer.now terms.now) }
{
    let execs = execs_of(alloc, peer, terms.executions.as_slice())?;
    let lines = lines_of(alloc, terms.lines.as_slice())?;
    Ok(Terms {
        symbol: terms.symbol.owned(),
        sign: terms.sign,
        day: terms.day,
        block: terms.block,
        execs: Items::new(execs),
        lines: Items::new(lines),
    })
}

// The keys of a peer's executions.
fn execs_of(alloc: Global, peer: &Text64, ids: &[Text]) -> Result<Vec<ExecKey>, NoMemory>
    ensures { IfOk result (λ execs. execs.items ≡ map (exec_of peer.now) ids.now) }
{
    ids.iter().map(|id| exec_of(peer, id)).collect(alloc)
}

// What lines book.
fn lines_of(alloc: Global, lines: &[AllocationLine]) -> Result<Vec<Line>, NoMemory>
    ensures { IfOk result (λ books. books.items ≡ map line_of lines.now) }
{
    lines.iter().map(line_of).collect(alloc)
}

// What a line books.
fn line_of(line: &AllocationLine) -> Line
    ensures { result ≡ line_of line.now }
{
    Line {
        account: line.account.owned(),
        qty: line.qty,
        price: line.price,
    }
}

// The key of a peer's allocation.
fn alloc_of(peer: &Text64, id: &Text) -> AllocKey
    ensures { result ≡ alloc_of peer.now id.now }
{
    AllocKey {
        peer: *peer,
        id: id.owned(),
    }
}

// The key of a peer's execution.
fn exec_of(peer: &Text64, id: &Text) -> ExecKey
    ensures { result ≡ exec_of peer.now id.now }
{
    ExecKey {
        peer: *peer,
        id: id.owned(),
    }
}

// What an execution brings to its order.
fn fill_of(peer: &Text64, sending: Moment, execution: &Execution) -> Fill
    ensures { result ≡ fill_of peer.now sending execution.now }
{
    Fill {
        order: OrderKey {
            peer: *peer,
            id: execution.order.owned(),
        },
        account: account_of(execution),
        symbol: execution.symbol.owned(),
        sign: execution.sign,
        size: size_of(execution.size),
        qty: execution.qty,
        price: execution.price,
        day: day_of_execution(execution.trade_date, execution.transacted, sending),
    }
}

// The account that an execution names, if it names one.
fn account_of(execution: &Execution) -> Option<Text64>
    ensures { result ≡ execution.now.account }
{
    match &execution.account {
        Some(account) => Some(account.owned()),
        None => None,
    }
}

// The size of an order: OrderQty, or else CumQty and LeavesQty together.
fn size_of(size: OrderSize) -> QtySum
    ensures { result ≡ size_of size }
{
    match size {
        OrderSize::Given(qty) => QtySum::from_units(i128::from(qty.units())),
        OrderSize::Filled { cum, leaves } => {
            QtySum::from_units(i128::from(cum.units()) + i128::from(leaves.units()))
        }
    }
}

// The day of an execution: TradeDate, else the UTC day of TransactTime, else that of SendingTime.
fn day_of_execution(trade_date: Option<Day>, transacted: Option<Moment>, sending: Moment) -> Day
    ensures { result ≡ day_of_execution trade_date transacted sending }
{
    match (trade_date, transacted) {
        (Some(day), _) => day,
        (None, Some(moment)) => moment.day(),
        (None, None) => sending.day(),
    }
}

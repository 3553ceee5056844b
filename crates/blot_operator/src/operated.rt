//! What an operator's lines are taken to: a desk of one's own, or a seat at a desk of many, of an open day too.
ghost use Rattle.std.specs.Prelude.{◌≡◌, ◌≢◌, Err, IfOk, IfSome, OnErr, OnOk};
ghost use Rattle.std.specs.Io.KnownBytes.{Appends};
ghost use Rattle.blot_desk.specs.declared.fault.DeskFault.TheVariants.{Broken};
ghost use Rattle.blot_console.specs.Answers.{CanBeTold};
ghost use Rattle.blot_stream.specs.Texts.{AppendsFront};
ghost use Rattle.blot_operator.specs.Asking.{AsksFor};
ghost use Rattle.blot_operator.specs.Dialogue.{AnswersQuestion, Comes, IsByDay, Ways};
ghost use Rattle.blot_operator.specs.OpenDay.{AsksDay, day_ask_by};
ghost use Rattle.blot_operator.specs.Operating.{asked_by, with_key};

use crate::{OperatorSeat, write_durable};
use blot_console::{Answer, DayAsk, Rows, SessionLine, parse_day_line};
use blot_desk::{Desk, DeskFault, Event, Held, Question, Reply, Seat, Snapshot};
use blot_gateway::FrameKeeper;
use blot_stream::{ReplayFault, write_text};
use std::alloc::{AllocError as NoMemory, Global};
use std::io::Write;
use std::sync::Wait;
use std::sync::ledger::Ledger;
use std::time;

/// Why an operator's event isn't taken.
#[derive(Clone, Copy, Debug)]
pub(crate) enum Declined {
    /// The desk doesn't take it.
    Desk(DeskFault),
    /// Its line can't be kept: it is too long for a record, or an SOH stands in it.
    Unkept,
}

impl From<DeskFault> for Declined {
    ghost use Rattle.std.specs.Prelude.{◌≡◌};
    ghost use Rattle.blot_operator.specs.declared.operated.Declined.TheVariants.{Desk};

    ghost from_gives = { λ fault declined. declined ≡ Desk fault };

    fn from(fault: DeskFault) -> Declined {
        Declined::Desk(fault)
    }
}

impl From<NoMemory> for Declined {
    ghost use Rattle.std.specs.Prelude.{◌≡◌};
    ghost use Rattle.blot_desk.specs.declared.fault.DeskFault.TheVariants.{NoMemory};
    ghost use Rattle.blot_operator.specs.declared.operated.Declined.TheVariants.{Desk};

    ghost from_gives = { λ _ declined. declined ≡ Desk NoMemory };

    fn from(_fault: NoMemory) -> Declined {
        Declined::Desk(DeskFault::NoMemory)
    }
}

/// What an operator's lines are taken to.
pub(crate) trait Operated {
    /// What the lines change.
    type State;

    /// What it does with an event, and what it may show.
    ghost ways: { Ways Self.State };

    /// What is so where what keeps its events is broken.
    ghost IsBroken: { Type 0 };

    /// What is so where all that it keeps is durable.
    ghost IsDurable: { Type 0 };

    /// Takes an event, for which this line asks: the reply to it. What isn't taken changes nothing.
    fn step(
        &self,
        alloc: Global,
        state: &mut Self::State,
        event: Event,
        line: &[u8],
    ) -> Result<Reply, Declined>
        requires { AsksFor line.now event }
        ensures comes { Comes ways state.old event result state.new }
        ensures tellable { IfOk result (λ reply. CanBeTold (with_key (asked_by event) reply)) }
        ensures err { OnErr result (state.new ≡ state.old) }
        ensures broken { result ≡ Err (Declined.Desk Broken) → IsBroken };

    /// Writes the text of an answer to its end and flushes it, once all is durable that its desk keeps. A fault is Write, or Journal where
    /// that can't be.
    fn tell<W: Write>(&self, output: &mut W, text: &[u8]) -> Result<(), ReplayFault>
        ensures ok { OnOk result (Appends (W.contents output.old) (W.contents output.new) text.now) }
        ensures err { OnErr result (AppendsFront (W.contents output.old) (W.contents output.new) text.now) }
        ensures durable { OnOk result IsDurable }
        ensures never_full { result ≢ Err ReplayFault.Full }
        ensures broken { result ≡ Err ReplayFault.Journal → IsBroken };

    /// The number of its newest entry, which `mine` withdraws.
    fn newest(&self, state: &Self::State) -> Option<u64>
        ensures { result ≡ ways.newest state.now };

    /// A live list.
    fn snapshot(&self, state: &Self::State) -> Result<Snapshot, NoMemory>
        ensures { IfOk result (λ snapshot. ways.shows state.now snapshot) };

    /// What it answers to a question.
    fn look(&self, state: &Self::State, question: &Question) -> Result<Answer, NoMemory>
        ensures finds { IfOk result (AnswersQuestion ways state.now question.now) }
        ensures tellable { IfOk result CanBeTold };

    /// What its day answers to a line that only an open day knows. An error is out of memory, and comes only where the line
    /// asks something.
    fn day_answer(&self, alloc: Global, line: &[u8]) -> Result<Option<Answer>, NoMemory>
        ensures answered { IfOk result (λ answer. IsByDay (day_ask_by ways.is_open line.now) answer) }
        ensures tellable { IfOk result (λ answer. IfSome answer CanBeTold) }
        ensures err { OnErr result (AsksDay (day_ask_by ways.is_open line.now)) };
}

/// What an open day does for its operators beside what is at its desk.
pub trait OpenDay {
    /// The session of each listed peer, in the order in which they are listed. An error is out of memory.
    fn sessions(&self, alloc: Global) -> Result<Rows<SessionLine>, NoMemory>;

    /// Whether it is told who made each step and each refused command: where several operators are on.
    fn tells_makers(&self) -> bool;

    /// Closes the day: no connection is taken any more, and each that is on ends.
    fn close(&self);
}

/// A desk of one's own.
#[derive(Drop)]
pub(crate) struct Own;

impl Operated for Own {
    ghost use Rattle.blot_operator.specs.Dialogue.{own_ways};

    type State = Held;

    ghost ways = { own_ways };

    ghost IsBroken = { ⊥ };

    ghost IsDurable = { Unit {0} };

    fn step(
        &self,
        _alloc: Global,
        held: &mut Held,
        event: Event,
        _line: &[u8],
    ) -> Result<Reply, Declined> {
        Ok(held.step(event)?)
    }

    fn tell<W: Write>(&self, output: &mut W, text: &[u8]) -> Result<(), ReplayFault> {
        write_text(output, text)
    }

    fn newest(&self, held: &Held) -> Option<u64> {
        held.newest_entry()
    }

    fn snapshot(&self, held: &Held) -> Result<Snapshot, NoMemory> {
        held.snapshot()
    }

    fn look(&self, held: &Held, question: &Question) -> Result<Answer, NoMemory> {
        Ok(Answer::Found(held.look(question)?))
    }

    fn day_answer(&self, _alloc: Global, _line: &[u8]) -> Result<Option<Answer>, NoMemory> {
        Ok(None)
    }
}

/// A desk of many, at which a seat submits.
#[derive(Drop)]
pub(crate) struct Shared<'a, R, L: Ledger> {
    pub(crate) rt: &'a R,
    pub(crate) desk: &'a Desk<L>,
}

impl<R: Wait, L: Ledger> Operated for Shared<'_, R, L> {
    ghost use Rattle.blot_operator.specs.Dialogue.{seat_ways};

    type State = Seat<L>;

    ghost ways = { seat_ways };

    ghost IsBroken = { ⊥ };

    ghost IsDurable = { Unit {0} };

    fn step(
        &self,
        _alloc: Global,
        seat: &mut Seat<L>,
        event: Event,
        _line: &[u8],
    ) -> Result<Reply, Declined> {
        Ok(self.desk.submit(self.rt, seat, event)?)
    }

    fn tell<W: Write>(&self, output: &mut W, text: &[u8]) -> Result<(), ReplayFault> {
        write_text(output, text)
    }

    fn newest(&self, seat: &Seat<L>) -> Option<u64> {
        seat.newest()
    }

    fn snapshot(&self, _seat: &Seat<L>) -> Result<Snapshot, NoMemory> {
        self.desk.snapshot(self.rt)
    }

    fn look(&self, _seat: &Seat<L>, question: &Question) -> Result<Answer, NoMemory> {
        Ok(Answer::Found(self.desk.look(self.rt, question)?))
    }

    fn day_answer(&self, _alloc: Global, _line: &[u8]) -> Result<Option<Answer>, NoMemory> {
        Ok(None)
    }
}

/// A desk of many on an open day, at which an operator's seat submits.
#[derive(Drop)]
pub(crate) struct Open<'a, R, L: Ledger, K: FrameKeeper, D> {
    pub(crate) rt: &'a R,
    pub(crate) desk: &'a Desk<L, K>,
    pub(crate) day: &'a D,
}

impl<R: Wait + time::Clock, L: Ledger, K: FrameKeeper, D: OpenDay> Operated
    for Open<'_, R, L, K, D> {
    ghost use Rattle.blot_desk.specs.Keeping.{IsSynced, IsUnwritten};
    ghost use Rattle.blot_operator.specs.Dialogue.{open_ways};

    type State = OperatorSeat<L>;

    ghost ways = { open_ways K.IsKept };

    ghost IsBroken = { IsUnwritten K.is_broken };

    ghost IsDurable = { IsSynced K.events K.durable };

    fn step(
        &self,
        alloc: Global,
        seat: &mut OperatorSeat<L>,
        event: Event,
        line: &[u8],
    ) -> Result<Reply, Declined> {
        seat.submit(self.rt, alloc, self.desk, event, line)
    }

    fn tell<W: Write>(&self, output: &mut W, text: &[u8]) -> Result<(), ReplayFault> {
        write_durable(self.rt, self.desk, output, text)
    }

    fn newest(&self, operator: &OperatorSeat<L>) -> Option<u64> {
        operator.newest()
    }

    fn snapshot(&self, _seat: &OperatorSeat<L>) -> Result<Snapshot, NoMemory> {
        self.desk.snapshot(self.rt)
    }

    fn look(&self, _seat: &OperatorSeat<L>, question: &Question) -> Result<Answer, NoMemory> {
        if !self.day.tells_makers() {
            return Ok(Answer::Found(self.desk.look(self.rt, question)?));
        }
        let (found, makers) = self.desk.look_by(self.rt, question)?;
        Ok(Answer::FoundBy(found, Rows::new(makers)))
    }

    fn day_answer(&self, alloc: Global, line: &[u8]) -> Result<Option<Answer>, NoMemory> {
        match parse_day_line(line) {
            Some(Ok(DayAsk::Close)) => {
                self.day.close();
                Ok(Some(Answer::Closed))
            }
            Some(Ok(DayAsk::Sessions)) => Ok(Some(Answer::Sessions(self.day.sessions(alloc)?))),
            Some(Err(fault)) => Ok(Some(Answer::Bad(fault))),
            None => Ok(None),
        }
    }
}

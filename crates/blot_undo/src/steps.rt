//! The stack of steps.
ghost use Rattle.std.specs.Prelude.{◌≡◌, ◌≤◌, ◌<◌, List, [], IsTrue, ◌↔◌, IfOk, IfErr, OnOk, OnErr, length, slice_get, slice_set, vec_len, vec_capacity, swap_remove, option_copied};
ghost use Rattle.blot_command.specs.Undoable.{numbers_in};
ghost use Rattle.blot_undo.specs.Book.{Accepts, book_of, book_rewound, book_with, list_before, list_in, newest_done, newest_undone, undo_of, redo_of};
ghost use Rattle.blot_undo.specs.Laws.{LeadTo, GoesBack, RoundTrips};
ghost use Rattle.blot_undo.specs.Faults.{IsFault};

use crate::step::Step;
use crate::{Done, StepFault, Undone};
use blot_command::Undoable;
use blot_types::EVENTS_MAX;
use std::alloc::{AllocError as NoMemory, Global};
use std::marker::Model;

/// A state with the steps that led to it, and those that were undone since. A contract sees the state, the
/// done steps, newest first, the undone ones, the one undone last first, and the next number; what a call
/// does is said of the book that these show (`book_of`).
#[derive(Drop)]
pub struct Steps<C: Undoable> {
    state: C::State,
    // The done steps, the newest last, and from `place` on the undone ones, the one undone last first.
    steps: Vec<Step<C, C::Inverse>>,
    place: usize,
    next: u64,
}

impl<C: Undoable> Model for Steps<C> {
    ghost use Rattle.blot_undo.specs.Book.{Stack};
    ghost use Rattle.blot_undo.specs.Stacks.{HoldsSteps, done_in, undone_in};

    ghost Value = { Stack C.State C C.Inverse };

    ghost view = { λ stack. record {
      state = stack.state;
      done = done_in stack.steps.items;
      undone = undone_in stack.steps.items;
      next = stack.next;
    } };

    ghost invariant = { λ stack. HoldsSteps C.meaning stack.state stack.steps.items stack.place stack.next };
}

impl<C: Undoable> Steps<C> {
    /// The stack of a state that holds no number yet, with no steps. No memory is taken.
    pub fn new(alloc: Global, state: C::State) -> Steps<C>
        requires { numbers_in C.meaning state ≡ [] }
        ensures { result ≡ record { state = state; done = []; undone = []; next = 1 } }
    {
        Steps {
            state,
            steps: Vec::new(alloc),
            place: 0,
            next: 1,
        }
    }

    /// Whether a number is left for one more step.
    pub fn room(&self) -> bool
        ensures { IsTrue result ↔ (self.now.next ≤ EVENTS_MAX) }
    {
        self.next <= EVENTS_MAX
    }

    /// How many steps are done.
    pub fn done(&self) -> usize
        ensures count { result ≡ length self.now.done }

        // Each done step led from the list before it to the list after it.
        ensures lead { LeadTo C.meaning self.now.done (list_in C.meaning self.now) }

        // Any count of them undone, and as many redone, give the book as it is.
        ensures round_trip { RoundTrips C.meaning (book_of C.meaning self.now) }
    {
        self.place
    }

    /// The number of the newest done step, if a step is done.
    pub fn newest(&self) -> Option<u64>
        ensures { result ≡ newest_done self.now.done }
    {
        let place = self.place.checked_sub(1)?;
        match &self.steps[place] {
            Step::Done(step) => Some(step.number),
            Step::Undone(_) => unreachable!(),
        }
    }

    /// The done step that stands so many before the newest one: the newest itself for 0. None where there aren't so many.
    pub fn done_before(&self, back: usize) -> Option<&Done<C::Inverse>>
        ensures { option_copied result ≡ slice_get self.now.done back }
    {
        if back >= self.place {
            return None;
        }
        match &self.steps[self.place - 1 - back] {
            Step::Done(step) => Some(step),
            Step::Undone(_) => unreachable!(),
        }
    }

    /// The state.
    pub fn state(&self) -> &C::State
        ensures { result.now ≡ self.now.state }
    {
        &self.state
    }

    /// The state; its steps go.
    pub fn into_state(self) -> C::State
        ensures { result ≡ self.state }
    {
        self.state
    }

    /// Takes a command under the next number, which it answers. No step is undone then. A command that is
    /// refused, or finds no memory, comes back, and the undone steps stay.
    pub fn apply(&mut self, command: C) -> Result<u64, StepFault<C>>
        requires { self.old.next ≤ EVENTS_MAX }
        ensures number { IfOk result (λ number. number ≡ self.old.next) }
        ensures accepted { OnOk result (Accepts C.meaning self.old command) }
        ensures taken { OnOk result (book_of C.meaning self.new ≡ book_with C.meaning self.old command) }
        ensures before { OnOk result (list_before C.meaning 1 self.new ≡ list_in C.meaning self.old) }
        ensures fault { IfErr result (IsFault C.meaning (list_in C.meaning self.old) command) }
        ensures err { OnErr result (book_of C.meaning self.new ≡ book_of C.meaning self.old) }
    {
        let number = self.next;
        let inverse = match command.apply(&mut self.state, number) {
            Ok(inverse) => inverse,
            Err((back, refusal)) => return Err(StepFault::Refused(back, refusal)),
        };
        let Ok(()) = self.steps.reserve(1) else {
            return Err(StepFault::NoMemory(C::revert(inverse, &mut self.state)));
        };
        self.steps.truncate(self.place);
        let step = Done { number, inverse };
        self.steps.push_reserved(Step::Done(step));
        self.place = self.steps.len();
        self.next += 1;
        Ok(number)
    }

    /// Takes the newest done step back and answers its number, or none where no step is done. No memory is
    /// taken.
    pub fn undo(&mut self) -> Option<u64>
        ensures book { book_of C.meaning self.new ≡ undo_of C.meaning (book_of C.meaning self.old) }
        ensures number { result ≡ newest_done self.old.done }
    {
        let place = self.place.checked_sub(1)?;
        let Step::Done(step) = self.steps.swap_remove(place) else {
            unreachable!()
        };
        let Done { number, inverse } = step;
        let command = C::revert(inverse, &mut self.state);
        let step = Undone { number, command };
        put_back(&mut self.steps, place, Step::Undone(step));
        self.place = place;
        Some(number)
    }

    /// Takes the step that was undone last again, under its old number, which it answers, or none where no
    /// step is undone. Where memory runs out the step stays undone.
    pub fn redo(&mut self) -> Result<Option<u64>, NoMemory>
        ensures book { OnOk result (book_of C.meaning self.new ≡ redo_of C.meaning (book_of C.meaning self.old)) }
        ensures number { IfOk result (λ number. number ≡ newest_undone self.old.undone) }
        ensures err { OnErr result (book_of C.meaning self.new ≡ book_of C.meaning self.old) }
    {
        let place = self.place;
        if place == self.steps.len() {
            return Ok(None);
        }
        let Step::Undone(step) = self.steps.swap_remove(place) else {
            unreachable!()
        };
        let Undone { number, command } = step;
        match command.apply(&mut self.state, number) {
            Ok(inverse) => {
                let step = Done { number, inverse };
                put_back(&mut self.steps, place, Step::Done(step));
                self.place += 1;
                Ok(Some(number))
            }
            Err((command, _)) => {
                let step = Undone { number, command };
                put_back(&mut self.steps, place, Step::Undone(step));
                Err(NoMemory)
            }
        }
    }

    /// Undoes a number of steps, newest first. No memory is taken.
    pub fn rewind(&mut self, count: usize)
        requires { count ≤ length self.old.done }
        ensures book { book_of C.meaning self.new ≡ book_rewound C.meaning count self.old }
        ensures back { GoesBack C.meaning count (book_of C.meaning self.old) (book_of C.meaning self.new) }
    {
        // What the stack keeps is known once a field is looked at.
        let _ = &self.state;
        for _ in 0..count {
            self.undo();
        }
    }
}

// Puts an item at the place where `swap_remove` took one out, and the one that stands there now back to the end.
// No memory is taken.
fn put_back<T>(items: &mut Vec<T>, place: usize, item: T)
    requires within { place ≤ vec_len items.old }
    requires room { vec_len items.old < vec_capacity items.old }
    ensures { (before : List T) (taken : T) → place < length before → items.old.items ≡ swap_remove before place taken → items.new.items ≡ slice_set before place item }
{
    let last = items.len();
    items.push_reserved(item);
    items.swap(place, last);
}

//! The steps of a stack.

/// A done step: its number, and what takes it back.
#[derive(Drop)]
pub struct Done<I> {
    pub number: u64,
    pub inverse: I,
}

/// An undone step: its number, and the command that does it again.
#[derive(Drop)]
pub struct Undone<C> {
    pub number: u64,
    pub command: C,
}

/// A step, which is done or undone.
#[derive(Drop)]
pub(crate) enum Step<C, I> {
    Done(Done<I>),
    Undone(Undone<C>),
}

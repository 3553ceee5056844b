//! What takes a command back.

use crate::BoxedEntry;

/// What takes a command back: the number of its entry, or for a Withdraw the entry that it took out.
#[derive(Drop)]
pub enum Inverse {
    Number(u64),
    Taken(BoxedEntry),
}

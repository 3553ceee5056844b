//! What a list of entries is without some of them. `erase_check` takes a busted chain of executions that no
//! allocation names out of a list, and gives the book of the rest: its orders and positions are those of the
//! whole list, as if the chain had never come. A `Withdraw` takes one entry out of a book's live list, whatever came
//! later, and can be undone. `blocked_by` tells which later entry stands in the way: the first that needs it.
#![tactic(auto)]

mod blocking;
mod chain;
mod erasure;
mod fault;
mod withdrawing;

pub use blocking::blocked_by;
pub use erasure::erase_check;
pub use fault::EraseFault;
pub use withdrawing::Withdraw;

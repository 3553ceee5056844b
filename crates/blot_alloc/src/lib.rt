//! The allocations: an AllocNew brings one, an AllocReplace one in the place of another, an AllocCancel ends
//! one. `Allocs` answers which live allocation names a chain of executions, and which instruction took up a
//! key or ended an allocation. Instructions come and go at the end of the list; one in the middle is lifted out, and put back at its
//! place. Whether one may come or go is the caller's to show.
#![tactic(auto)]

mod allocs;
mod index;
mod roots;

pub use allocs::Allocs;

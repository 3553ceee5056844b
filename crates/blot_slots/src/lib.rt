//! Who is connected, once. A table holds the session with each listed peer, which is in while the peer isn't
//! connected, and out while it is. A session that comes back waits for the peer's next Logon, and keeps its numbers. `Slots` is
//! the table under its lock.
#![tactic(auto)]

mod peers;
mod slot_fault;
mod slots;
mod table;

pub use peers::are_distinct;
pub use slot_fault::SlotFault;
pub use slots::Slots;
pub use table::SlotTable;

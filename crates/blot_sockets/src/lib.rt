//! What the connections of a day are made of: a stream over TCP as the wire of a session, the system's clock, and the door through which
//! they come.
#![tactic(auto)]

mod door;
mod socket;
mod system_clock;

pub use door::Door;
pub use socket::Socket;
pub use system_clock::SystemClock;

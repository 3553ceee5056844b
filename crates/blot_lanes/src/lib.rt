//! The lanes of an open day. Each takes a connection, greets it, serves the session of the peer that it names, and takes the next one, until
//! the door is closed. Each listed peer has one session and one seat at the desk for the whole day, which are out while it is on.
#![tactic(auto)]

mod broker_seat;
mod connection;
mod lanes;
mod listed_peer;
mod peer_store;
mod peers;

pub use broker_seat::BrokerSeat;
pub use connection::{GREETING_READS, serve_connection};
pub use lanes::{Crew, Task, serve_crewed, serve_lanes};
pub use listed_peer::ListedPeer;
pub use peer_store::{PeerNotes, PeerStore};
pub use peers::Peers;

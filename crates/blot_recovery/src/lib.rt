//! Takes up the text of a journal. Its frames are read one by one, out of a file or of memory: each event is stepped into a desk by its
//! party's seat, and the numbers of each peer are found. So a day is opened over the file of a journal. What a journal received is handed
//! out as a capture.
#![tactic(auto)]

mod fault;
mod opening;
mod operators;
mod parties;
mod pieces;
mod receiving;
mod recovering;
mod taking;
mod walking;

pub use fault::RecoverFault;
pub use opening::{OpenFault, open_day};
pub use operators::{KeptOperators, OPERATOR_SEATS};
pub use parties::{KeptOperator, KeptPeer};
pub use pieces::{InMemory, Pieces};
pub use receiving::received;
pub use recovering::{Recovered, recover};

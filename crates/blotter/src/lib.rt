//! The calls of the blotter's program: each is generic over what it reads and writes, so that its contract says which bytes it took
//! and which it gave. Here stand the days that are served; the calls over a capture and an operator's lines are those of `blot_capture`
//! and `blot_operator`, and the trail is `blot_trail`'s. The program itself, with its words and its files, stands on these libraries.
#![tactic(auto)]

mod kept_day;
mod meanwhile;
mod open_day;
mod rounds;
mod serving;
mod settling;
mod staffed_day;

pub use blot_capture::{capture, replay, replay_within};
pub use blot_operator::{desk_lines, seat_lines};
pub use blot_sockets::{Door, Socket, SystemClock};
pub use blot_stream::{Outcome, ReplayFault, ServeFault};
pub use kept_day::{KeptFault, journal_desk, serve_kept_day};
pub use open_day::serve_open_day;
pub use rounds::{Rounds, log_endings};
pub use serving::serve_day;
pub use staffed_day::{serve_kept_staffed_day, serve_staffed_day};

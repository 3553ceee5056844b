//! What the text of a day's journal means. Each frame of it is read by itself into what it keeps: a peer's command, an
//! operator's event, the numbers of a session, or a message that only counts. In their order they give the events of the day,
//! each with the party that brought it, and the two numbers of each peer; no session is asked. The journal's own frames are written
//! here too, and a `Diary` keeps the events of a desk in a journal.
#![tactic(auto)]

mod diary;
mod framing;
mod kept;
mod kinds;
mod numbers;
mod own;
mod plain;
mod reading;
mod records;
mod writing;

pub use diary::Diary;
pub use kept::{Beginning, Content, Kept, Noted, Party};
pub use numbers::SequenceNumbers;
pub use plain::is_plain;
pub use reading::read_kept;
pub use records::{asked_record, beginning_record, numbers_record, wrapped_record};

//! A capture: the bytes of a day's drop copies. Each frame goes to the session of its sender, and each command that a session takes
//! goes to a desk; `replay` writes the report of a day of that desk. `Sessions` says what came of each frame.
#![tactic(auto)]

mod became;
mod capturing;
mod handled;
mod handling;
mod intake;
mod moment;
mod replaying;
mod sessions;

pub use became::Became;
pub use capturing::capture;
pub use handled::Handled;
pub use replaying::{replay, replay_within};
pub use sessions::Sessions;

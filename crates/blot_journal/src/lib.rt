//! A text in a file that a crash can't break: what was made durable is there after each crash, and more of it only by whole batches.
//! The file has a switch and two lengths in its head, and the text alone behind it. What a disk does is a trait, `Device`.
#![tactic(auto)]

mod batch;
mod device;
mod file;
mod ghost_calls;
mod head;
mod journal;
mod memory;
mod opening;
mod recovery;

pub use device::{Device, DeviceFault};
pub use file::{FileDevice, FileFault};
pub use head::HEAD;
pub use journal::{Journal, JournalFault};
pub use memory::{Change, MemoryDevice};
pub use opening::open_file;
pub use recovery::{RecoveryFault, text_in};

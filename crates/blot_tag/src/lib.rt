//! The bytes of a FIX 4.4 stream, taken apart. A reader is fed pieces of any size and gives the
//! valid frames among them, each as early as possible, whatever stands between them. A frame gives
//! its fields, length and data pairs included, up to the first that can't be split off. A message in
//! the making becomes a valid frame.
#![tactic(auto)]

mod buffer;
mod bytes;
mod digits;
mod field;
mod fields;
mod find;
mod frame;
mod frame_text;
mod lanes;
mod look;
mod reader;
mod split;
mod sums;
mod write_fault;

pub use digits::{is_number, number_of};
pub use field::{Field, SplitFault, SplitReason};
pub use fields::Fields;
pub use frame::Frame;
pub use frame_text::FrameText;
pub use reader::Reader;
pub use write_fault::WriteFault;

//! Moments and days as FIX writes them: exact reading, exact writing, and the calendar between.
//! A [`Moment`] counts UTC milliseconds since 1970 and a [`Day`] days since 1970-01-01, of the years 0000 to 9999.
//! A text is one moment or day, or it has one named fault; nothing here takes memory.
#![tactic(auto)]

mod clock;
mod day;
mod digits;
mod fault;
mod moment;

pub use day::Day;
pub use fault::TimeFault;
pub use moment::Moment;

//! The words that the whole house speaks: texts, keys, fills, commands and the entries of a day's record.
//! The definitions of what a list of entries means (the root of a chain, the survivors, the order line,
//! the refusal of a command) stand in the specs of this crate, since every crate above speaks of them.
#![tactic(auto)]

mod allocation;
mod command;
mod fill;
mod items;
mod items_builder;
mod keys;
mod lines;
mod link;
mod numbered;
mod part;
mod refused;
mod text;

pub use allocation::{AllocRole, Instruction, Line, Terms, is_reference};
pub use command::{AllocCancel, AllocNew, AllocReplace, Bust, Command, Correct, Entry, Trade};
pub use fill::{Fill, Sign};
pub use items::Items;
pub use items_builder::ItemsBuilder;
pub use keys::{AllocKey, ExecKey, OrderKey, PositionKey};
pub use lines::{OrderLine, PositionLine, Version, leaves_of};
pub use link::{Link, Role};
pub use numbered::{Numbered, lesser};
pub use part::{Part, house_account};
pub use refused::Refused;
pub use text::{TEXT_MAX, Text64, is_text};

/// The most events that a day's record holds, and so the greatest number that a command can have.
pub const EVENTS_MAX: u64 = 250_000;

/// The most items of a list within a command or a message: executions or lines of an allocation. This
/// project's rule.
pub const ITEMS_MAX: usize = 200;

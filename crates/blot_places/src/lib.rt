//! Where things stand in a list that grows and shrinks at its end. A `Slot` holds one of them, live or lifted
//! out of what the list shows; `Places` holds, under each key, the places of the slots that belong to it, and
//! knows nothing of the slots. So a slot is lifted and put back without touching any place.
#![tactic(auto)]

mod around;
mod ghost_value;
mod places;
mod slots;
mod stack;

pub use around::{places_above, places_below};
pub use ghost_value::GhostValue;
pub use places::Places;
pub use slots::{Slot, live_at, live_numbered, mark, newest_live, oldest_live};
pub use stack::Stack;

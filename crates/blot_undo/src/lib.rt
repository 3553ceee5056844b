//! Any number of steps on a state, taken, undone and redone, for every lawful type of command. `Steps` keeps
//! the state, the inverses of the done steps and the commands of the undone ones, and the next number. Undoing
//! takes no memory: a step that is undone or redone stays at its place.
#![tactic(auto)]

mod fault;
mod step;
mod steps;

pub use fault::StepFault;
pub use step::{Done, Undone};
pub use steps::Steps;

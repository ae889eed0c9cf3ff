//! Tasks and procs.
#![tactic(auto)]

mod ending;
mod lending;
mod proc;
mod queue;
mod starting;
mod tasks;

pub use ending::Ended;
pub use tasks::{StartFault, Tasks};

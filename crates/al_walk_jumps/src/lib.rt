//! Steps of a task that jump: where break, continue, raise and goto lead.
#![tactic(auto)]

mod leads;

pub use leads::{behind_bodies, jumps, next_of_loop};

//! Steps of a task that find places, and read and write what stands there.
#![tactic(auto)]

mod places;
mod storage;
mod targets;
mod updates;

pub use places::{find_declared, find_place};
pub use storage::{store, store_parameter};
pub use targets::{aim, assign};

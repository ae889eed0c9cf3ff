//! What a task asks next: its private steps, put together.
#![tactic(auto)]

mod asks;
mod calls;
mod gathers;
mod stages;
mod steps;
mod works;

pub use asks::{Asked, ask};
pub use steps::private_step;

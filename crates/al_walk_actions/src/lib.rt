//! Steps of actions: texts that are printed, channels, allocation, and starts of tasks.
#![tactic(auto)]

mod actions;
mod acts;
mod allocations;
mod print;
mod written;

pub use actions::act;

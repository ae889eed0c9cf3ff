//! Emits the instructions of jumps and branches of each reach, of turns, and the parts of calls and returns.
#![tactic(auto)]

pub mod calls;
pub mod jumps;

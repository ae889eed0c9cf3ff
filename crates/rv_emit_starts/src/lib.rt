//! Emits the instructions of talks and of starts, with the records that they leave in the frame.
#![tactic(auto)]

pub mod starts;
pub mod talks;

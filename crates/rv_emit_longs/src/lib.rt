//! Emits the instructions of operations on pairs of words, and the routines of division that they call.
#![tactic(auto)]

pub mod longs;
pub mod routines;

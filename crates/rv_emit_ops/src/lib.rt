//! Emits the instructions of each operation, by a plan of where slots live and where things stand in the code.
#![tactic(auto)]

pub mod actions;
pub mod flow;
pub mod ops;
pub mod plan;
pub mod program;
pub mod values;

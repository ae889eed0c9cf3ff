//! Emits operations with a constant on the right, conversions, and the parts of operations on pairs of words.
#![tactic(auto)]

pub mod constants;
pub mod conversions;
pub mod pairs;

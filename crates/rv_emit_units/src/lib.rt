//! Emits the instructions that zero slots, those that load, store and clear the units of a value, and those that compose a
//! text byte by byte.
#![tactic(auto)]

pub mod texts;
pub mod units;
pub mod zeros;

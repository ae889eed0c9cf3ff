//! What operators and places give is well typed, where their operands are. The functions here do nothing, and their
//! contracts are laws.
#![tactic(auto)]

mod laws;

pub use laws::{operands_are_sound, operators_are_sound, places_are_sound};

//! What names, members and callees give is well typed, where the environment tells of the names. The functions here do
//! nothing, and their contracts are laws.
#![tactic(auto)]

mod laws;

pub use laws::{callees_are_sound, nodes_are_sound};

//! What trees of statements give is well typed. The functions here do nothing, and their contracts are laws.
#![tactic(auto)]

mod laws;

pub use laws::{bodies_are_named, bodies_are_sound, statements_are_sound, types_are_gathered};

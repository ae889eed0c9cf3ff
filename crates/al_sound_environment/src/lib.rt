//! What the environment of a text tells of its names: their types are sound, and the names of members lead to members. The functions here
//! do nothing, and their contracts are laws.
#![tactic(auto)]

mod laws;

pub use laws::{constants_are_within, environment_is_sound, environment_tells, members_are_sound};

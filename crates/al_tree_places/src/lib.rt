//! In the tree of a text what is looked up by its place stands at a place of its own. The functions here do nothing, and their
//! contracts are laws.
#![tactic(auto)]

mod laws;

pub use laws::{bodies_are_few, entries_are_found, places_are_apart};

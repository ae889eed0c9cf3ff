//! The jumps of a body that the typing rules accept have their targets in the typed body. The functions here do nothing, and their contracts are
//! laws.
#![tactic(auto)]

mod laws;

pub use laws::{bodies_have_targets, numbers_differ};

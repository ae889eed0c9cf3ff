//! The types of functions that a text defines are plain. The functions here do nothing, and their contracts are laws.
#![tactic(auto)]

mod laws;

pub use laws::signatures_are_plain;

//! Each instance of a text has a type. The functions here do nothing, and their contracts are laws.
#![tactic(auto)]

mod laws;

pub use laws::instances_have_types;

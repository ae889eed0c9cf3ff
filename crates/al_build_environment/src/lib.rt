//! The environment of a whole text: what its items declare, by the typing rules that are asked of items.
#![tactic(auto)]

mod whole;

pub use whole::environment;

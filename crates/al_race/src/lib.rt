//! The data races of a run, by what its entries did.
//!
//! `specs/Order.antt` says which entries come before which, by edges and paths, and `specs/Races.antt` which of them race and
//! the text of that. `specs/Examples.antt` has worked runs.
#![tactic(auto)]

mod laws;

pub use laws::paths_are_found;

//! Steps of a task for the cases of switches and alts.
#![tactic(auto)]

mod alts;
mod switches;

pub use alts::{alt_talk, alt_went, with_cases};
pub use switches::select;

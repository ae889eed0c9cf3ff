//! Emits the parts of actions, of accesses to units, and of texts that are composed.
#![tactic(auto)]

pub mod acts;
pub mod homes;
pub mod texts;
pub mod units;

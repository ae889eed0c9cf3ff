//! Kinds of control that are alike up to actions without an answer. The definitions are in specs/; the functions here do
//! nothing, and their contracts are the laws.
#![tactic(auto)]

mod laws;
mod matches;

pub use laws::{last_actions_have_no_answer, runs_are_alike_until_last};
pub use matches::MatchesUntilLast;

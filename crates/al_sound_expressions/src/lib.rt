//! What trees of expressions give is well typed. The function here does nothing, and its contract is a law.
#![tactic(auto)]

mod laws;

pub use laws::expressions_are_sound;

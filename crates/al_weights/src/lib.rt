//! What the weights of programs bound. The function here does nothing, and its contract is the law.
#![tactic(auto)]

mod law;

pub use law::functions_are_few;

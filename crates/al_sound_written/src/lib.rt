//! What is written as a type and breaks no rule where it is written breaks none as a whole. The function here does nothing, and its contract is
//! the law.
#![tactic(auto)]

mod law;

pub use law::written_types_are_sound;

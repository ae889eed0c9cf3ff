//! The program of a text that the typing rules accept has sound types. The function here does nothing, and its contract is a law.
#![tactic(auto)]

mod laws;

pub use laws::programs_are_sound;

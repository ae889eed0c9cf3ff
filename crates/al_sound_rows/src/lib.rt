//! The rows of the functions and branches of a text are what was typed from them. The function here does nothing, and its contract is a law.
#![tactic(auto)]

mod laws;

pub use laws::rows_are_units;

//! The globals and the elements of channels of the program of a text that the typing rules accept are what a well typed program has. The
//! function here does nothing, and its contract is a law.
#![tactic(auto)]

mod laws;

pub use laws::globals_are_typed;

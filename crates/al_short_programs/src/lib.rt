//! Programs of texts have so few globals and string constants that the places of their blocks are numbers of 64 bits, and
//! their string constants are of bytes. The functions here do nothing, and their contracts are laws.
#![tactic(auto)]

mod laws;

pub use laws::{programs_are_short, strings_are_bytes};

//! What an image has to have to run as the text means that it was compiled from. The condition is in specs/; the function here does
//! nothing, and its contract is the law.
#![tactic(auto)]

mod laws;

pub use laws::compiled_programs_run_as_meant;

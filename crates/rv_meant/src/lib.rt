//! Images that were generated run as the text means: what is asked of a program and its operations stands in specs/; the function
//! here does nothing, and its contract is the law.
#![tactic(auto)]

mod laws;

pub use laws::images_run_as_meant;

//! What a program of operations has to be so that it asks what a typed program asks, and that runs are the same then. The
//! definitions are in specs/; the function here does nothing, and its contract is the law.
#![tactic(auto)]

mod laws;

pub use laws::lowered_programs_run_alike;

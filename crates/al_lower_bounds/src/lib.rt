//! What lowered programs keep of the bounds of operations, which code for them rests on. The functions here do nothing, and their
//! contracts are the laws.
#![tactic(auto)]

mod laws;

pub use laws::lowered_programs_keep_bounds;

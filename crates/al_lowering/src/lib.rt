//! What lowering keeps: the operations of a program ask what its meaning says, so that both have the same runs. What is asked of the
//! program stands in specs/; the function here does nothing, and its contract is the law.
#![tactic(auto)]

mod laws;

pub use laws::lowering_keeps_the_meaning;

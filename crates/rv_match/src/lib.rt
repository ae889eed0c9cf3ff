//! Which harts stand for which tasks of a program of operations, and why such harts ask what the tasks ask. The definitions
//! are in specs/; the function here does nothing, and its contract is the law.
#![tactic(auto)]

mod followed;
mod laws;

pub use followed::FollowsOperations;
pub use laws::harts_that_follow_are_alike;

//! How many procs, tasks and channels a world has after so many entries. The definitions are in specs/; the function here
//! does nothing, and its contract is the law.
#![tactic(auto)]

mod law;

pub use law::counts_have_room;

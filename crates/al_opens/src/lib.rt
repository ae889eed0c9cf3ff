//! Where the blocks of globals and strings stand in the first world of a program. The definitions are in specs/; the function
//! here does nothing, and its contract is the law.
#![tactic(auto)]

mod laws;

pub use laws::blocks_stand;

// The entries of a schedule, and the actions that tasks ask of the world.
#![tactic(auto)]

mod act;
mod entry;
mod laws;

pub use act::{Act, Block, Branch, Branches, Bytes, Start, Starts, Words};
pub use entry::{Entry, Loan};
pub use laws::places_are_least;

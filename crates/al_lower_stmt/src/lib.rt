//! Statements as operations: how many they have, where cases and labels begin, and where jumps lead.
#![tactic(auto)]

mod cases;
mod jumps;
mod labels;
mod sizes;
mod statements;

pub use jumps::{Again, Leading};
pub use labels::{Places, places};
pub use sizes::{all_size, stmt_size};
pub use statements::{all_statements, body, statement};

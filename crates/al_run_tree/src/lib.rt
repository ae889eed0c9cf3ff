//! Blocks, and the runs of free addresses between them, as a balanced search tree in a table of nodes.
//!
//! The two sides of a node differ by at most one in height. Each node tells how wide the widest run is between the
//! blocks from it down, so that the first run with room for a new block is found on one way down. A table is read and
//! written by [`Nodes::read`] and [`Nodes::write`] alone, and each of them counts a step.
#![tactic(auto)]

mod balance;
mod change;
mod node;
mod nodes;
mod search;
mod steps;

pub use change::{Taken, insert, take_out};
pub use node::{Extent, NIL, Node};
pub use nodes::Nodes;
pub use search::{find, first_fit, first_from, last_to};
pub use steps::Steps;

//! The region: where the live blocks of the store lie, and where a new one goes.
//!
//! A region is a stretch of addresses that begins at [`BASE`]. Contracts see it as its size and the list of its live
//! blocks in the order of their places, and nothing of how it is kept. A new block goes to the least multiple of 8 at
//! which it fits between the live blocks. Only [`Region::new`] takes memory.
#![tactic(auto)]

mod region;

pub use al_run_tree::Steps;
pub use region::{BASE, MOST_BLOCKS, NotThere, Region};

#[cfg(test)]
mod costs;
#[cfg(test)]
mod tests;

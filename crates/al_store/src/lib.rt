//! The store: the live blocks with their bytes, and each access to them.
//!
//! Contracts see a store as the size of its region and the list of its live blocks, each with its bytes, in the order
//! of their places. What a call answers and what it leaves are the store's definitions of al_event. Only
//! [`Store::new`] takes memory.
#![tactic(auto)]

mod memory;
mod store;

pub use store::Store;

#[cfg(test)]
mod tests;

//! Emits the dispatchers of calls through pointers: each a tree of comparisons that finds a function of its class.
#![tactic(auto)]

pub mod parts;
pub mod trees;

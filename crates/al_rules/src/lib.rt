//! What the typing rules say of a tree: what is found in it, or every fault.
//!
//! A rule is asked of a node by `ask`, in definitions and in code. The definitions are in `specs/Outcome.antt`.
#![tactic(auto)]

mod asked;
mod fault;

pub use asked::{ask, judged};
pub use fault::{TypeFault, TypeStop, broken};

#[cfg(test)]
mod tests;

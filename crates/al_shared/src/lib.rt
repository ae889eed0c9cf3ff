//! Which parameters and locals of a function are shared by what its body does: those whose address is taken, and those that a
//! branch of a par in it names.
//!
//! Arrays and aggregates are shared by their types; that is not asked here.
#![tactic(auto)]

mod expression;
mod marks;
mod statement;

pub use statement::shared;

#[cfg(test)]
mod tests;

//! The values of constant expressions, by typing rules 21 and 22.
//!
//! `specs/Constants.antt` says which expressions are constant and what their values are.
#![tactic(auto)]

mod expression;
mod integer;

pub use expression::constant;

#[cfg(test)]
mod tests;

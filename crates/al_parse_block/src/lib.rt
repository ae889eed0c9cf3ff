//! The parser of statements and local declarations.
#![tactic(auto)]

mod begun;
mod calls;
mod cases;
mod context;
mod declarations;
mod lists;
mod part;
mod rules;
mod simple;
mod words;

pub use calls::block;
pub use rules::block_within;

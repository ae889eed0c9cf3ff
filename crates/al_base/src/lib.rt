//! The words that every other crate speaks in: places in a text, traps, and how a run ends.
#![tactic(auto)]

mod arith;
mod failure;
pub mod laws;
mod line;
mod over;
mod place;
mod trap;

pub use arith::{Kind, Op, apply, convert};
pub use failure::{Failed, NoMemory};
pub use line::{put, put_number};
pub use over::{Over, over_line};
pub use place::Place;
pub use trap::Trap;

#[cfg(test)]
mod tests;

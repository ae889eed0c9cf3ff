//! The globals and the functions outside of adts of a text with their types, by typing rules 2, 4, 6 and 19, and by those that
//! are asked of types.
//!
//! The rules are in `specs/Rules.antt`, one predicate each; `specs/Globals.antt` says of what they are asked.
#![tactic(auto)]

mod found;
mod item;
mod number;
mod rules;

pub use found::Found;
pub use item::{globals, main_of};
pub use number::numbers;

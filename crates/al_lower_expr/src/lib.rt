//! Expressions, places, targets, objects and rows of expressions as operations.
#![tactic(auto)]

mod actions;
mod calls;
mod expr;
mod forms;
mod operators;

pub use actions::{initialize, target};
pub use calls::{arguments, object};
pub use expr::{effect, operand, place, pointer, row_values, unless, value};

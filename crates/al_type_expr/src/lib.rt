//! The typing of expressions: the typed expression of a tree, or a fault that is in it.
//!
//! `specs/Nodes.antt` says what each kind of node gives, and which rules it is asked.
#![tactic(auto)]

mod columns;
mod expr;
mod leaves;
mod lists;
mod parts;

pub use columns::Columns;
pub use expr::{dropped_value, found, place_in, value_of};
pub use leaves::expr_place;
pub use lists::more;

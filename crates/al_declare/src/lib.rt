//! The typing rules of declarations that names alone decide: 2, 3, 12, 15 and 17, which are asked of a text once; and the
//! numbers of functions.
//!
//! The rules are in `specs/Rules.antt`, one predicate each; `specs/Types.antt`, `specs/Expressions.antt`,
//! `specs/Statements.antt` and `specs/Items.antt` say of which parts of a tree they are asked.
#![tactic(auto)]

mod asked;
mod by_name;
mod expression;
mod function;
mod item;
mod rules;
mod statement;
mod text;
mod type_tree;

pub use function::{Defined, functions};
pub use item::ask_names;

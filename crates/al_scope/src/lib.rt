//! What each name of a text stands for, by typing rule 1, and whether enum values and bounds are constant, by rule 22.
//!
//! The rules are in `specs/Rules.antt`, one predicate each; `specs/Expressions.antt`, `specs/Statements.antt` and
//! `specs/Items.antt` say of which parts of a tree they are asked.
#![tactic(auto)]

mod bound;
mod declaration;
mod expression;
mod item;
mod known;
mod names;
mod statement;
mod type_tree;
mod walk;

pub use declaration::{Declaration, Resolved, Scopes};
pub use item::resolve;
pub use names::Names;

//! Typing rule 9 of print and terminate, which are only called. It is asked of a text once: also in adts with parameters that
//! have no instance.
//!
//! The rule is in `specs/Rules.antt`; `specs/Expressions.antt`, `specs/Statements.antt` and `specs/Items.antt` say of which names
//! of a text it is asked.
#![tactic(auto)]

mod expression;
mod item;
mod rules;
mod statement;

pub use item::names_are_called;

//! The typing of statements: the typed statement of a tree, or a fault that is in it.
//!
//! `specs/Statements.antt` says what each kind of statement gives, and which rules it is asked; `specs/Iterators.antt` says what
//! the iterators of an expression statement are.
#![tactic(auto)]

mod iterators;
mod labels;
mod leaf;
mod lists;
mod numbers;
mod part;
mod stmt;
mod within;

pub use stmt::statement;
pub use within::{Choice, Within};

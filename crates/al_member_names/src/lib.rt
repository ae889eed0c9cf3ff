//! The data members and functions that the types with members of a text have, their own and those that unnamed members lend,
//! by typing rule 8.
//!
//! The rule is in `specs/Rules.antt`; `specs/Members.antt` says of what it is asked.
#![tactic(auto)]

mod function;
mod lend;
mod member;
mod walk;

pub use function::OwnFunction;
pub use member::{aggregate_if, member_names};

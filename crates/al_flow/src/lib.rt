//! Where each goto, raise, break and continue of a function goes, by typing rules 49 to 51 and 54.
//!
//! The rules are in `specs/Rules.antt`, one predicate each, and `specs/Flow.antt` says which statements they are asked of.
#![tactic(auto)]

mod around;
mod flow;
mod mark;
mod marks;
mod target;
mod targets;
mod walk;

pub use around::{Enclosing, Outside};
pub use flow::find_targets;
pub use mark::Mark;
pub use marks::Marks;
pub use target::Target;
pub use targets::Targets;
pub use walk::Walk;

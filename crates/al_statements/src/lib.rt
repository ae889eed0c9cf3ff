//! The typing rules of statements that the types of their parts decide, and the typed statements that have no statements in
//! them.
//!
//! The rules are in `specs/Rules.antt`, one predicate for each sentence; `specs/Parts.antt` and `specs/Cases.antt` say of which
//! nodes they are asked and what these nodes give.
#![tactic(auto)]

mod cases;
mod form;
mod label;
mod parts;
mod returns;
mod rules;
mod values;

pub use cases::{Cases, add_label, alt_case, ask_cases, case_label, no_cases};
pub use label::Label;
pub use parts::{allocated, bounds, given_back, initialized, started, switched};
pub use returns::{became, returned};
pub use values::Values;

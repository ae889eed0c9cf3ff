//! The typing rules of types as they are written, 7, 16, 18 and 20, and what declarations give their names as types.
//!
//! The rules are in `specs/Rules.antt`, one predicate each; `specs/Written.antt` and `specs/Types.antt` say of what they
//! are asked.
#![tactic(auto)]

mod head;
mod member;
mod rules;
mod variable;
mod written;

pub use head::signature;
pub use member::{member_faults, members_faults};
pub use variable::{typedef_faults, variable_type};
pub use written::faults_in;

//! Whether types, with all their parts, are ones that the typing rules leave.
//!
//! Rules 7, 16, 17, 18 and 20 are asked where a type is written, at the place of what breaks them (`al_type_rules`, `al_declare`). Here they
//! are asked of types as wholes, so that they are known to hold of each type of an environment and of a function, however it came about.
#![tactic(auto)]

mod environment;
mod types;

pub use environment::environment_holds;
pub use types::{are_sound, is_sound, is_stored, types_hold};

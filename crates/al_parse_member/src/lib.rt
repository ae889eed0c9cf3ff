//! The parser of parameters, of constants of enums, of initializers, and of members of types.
#![tactic(auto)]

mod context;
mod initializers;
mod members;
mod parameters;

pub use context::{Context, name_at, type_name};

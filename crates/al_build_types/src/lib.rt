//! What the names of a text stand for as types, and its instances with their arguments, by the numbers that the types with
//! members have in a program.
#![tactic(auto)]

mod instance;
mod named;

pub use instance::{instance_of, instances};
pub use named::types;

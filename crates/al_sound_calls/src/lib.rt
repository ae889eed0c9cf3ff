//! Signatures of functions lead to the functions that a text defines. The functions here do nothing, and their contracts are laws.
#![tactic(auto)]

mod laws;

pub use laws::{definitions_have_no_arrays, functions_lead, methods_lead};

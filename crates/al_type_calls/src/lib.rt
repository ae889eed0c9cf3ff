//! What a call calls: print or terminate, a function by its name, a function of an adt with its object, or a pointer.
#![tactic(auto)]

mod callee;
mod calls;

pub use callee::Callee;
pub use calls::{arrow_callee, dot_callee, named_callee, pointer_callee};

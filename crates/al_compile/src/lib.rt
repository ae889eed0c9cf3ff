//! Typed programs become images: operations first, and then code for them.
#![tactic(auto)]

mod program;

pub use program::compile;

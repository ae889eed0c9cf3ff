//! Steps of a task that evaluate expressions, and what is to be done for calls by name.
#![tactic(auto)]

mod calls;
mod evals;

pub use calls::{Then, with_call};
pub use evals::{eval, evaluation, with_dropped, with_evaluations};

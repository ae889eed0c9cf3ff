//! Why several files are no one text, and the lines that the log gets for it.
#![tactic(auto)]

mod fault;
mod line;

pub use fault::{FrontFault, LinkFault, LinkReason, LinkStop};
pub use line::{fault_line, list_line};

//! The check of a whole text by the typing rules: its typed program, or a rule that is broken in it, with its place.
//!
//! `specs/Checked.antt` says in which order the parts of the rules are asked; each stands in the crate that asks it.
#![tactic(auto)]

mod checked;
mod flow;
mod program;

pub use checked::check;

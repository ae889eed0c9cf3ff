//! The source world of a program after the entries of a schedule, as text.
//!
//! `specs/Walks.antt` says what an answer stands for: the run of the source meaning along the entries, the first of them that is not
//! permitted, or a number on the way that a word has no room for.
#![tactic(auto)]

mod laws;
mod walking;

pub use laws::runs_have_room;
pub use walking::{ShowStop, WalkStop, shown, walk};

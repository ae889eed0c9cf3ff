//! The source world of a program, walked along a schedule.
//!
//! A [`Source`] stands for the run of the source meaning along the entries that it took: `specs/Sources.antt` says of which
//! world, and what an entry needs so that its numbers fit in words.
#![tactic(auto)]

mod acts;
mod entry;
mod opening;
mod slots;
mod source;
mod told;

pub use entry::{Stepped, step};
pub use source::{Source, start, text};

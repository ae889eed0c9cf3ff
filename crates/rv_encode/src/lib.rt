//! The words of instructions that were generated.
#![tactic(auto)]

mod ranges;
mod words;

pub use ranges::is_in_range;
pub use words::words_of;

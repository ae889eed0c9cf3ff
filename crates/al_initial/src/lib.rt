//! The globals of a text with what they start with, by typing rule 21, and the string constants and types that their
//! initializers write.
//!
//! `specs/Start.antt` says which values are constant, `specs/Initializers.antt` what braces give, `specs/Walks.antt` and
//! `specs/Whole.antt` what a whole text gives.
#![tactic(auto)]

mod adts;
mod gather;
mod globals;
mod initializer;
mod start;
mod starts;
mod texts;
mod whole;

pub use globals::Initial;
pub use whole::initial;

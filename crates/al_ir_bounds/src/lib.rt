//! Whether a program of operations keeps the bounds that code is made for.
//!
//! `specs/Checks.antt` has the bounds as they are looked at, one by one; the law here says that a program which passes keeps the
//! bounds of `al_ir`.
#![tactic(auto)]

mod laws;
mod operations;
mod parts;
mod program;

pub use laws::checked_programs_are_bounded;
pub use program::is_bounded;

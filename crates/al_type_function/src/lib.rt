//! A function of a text as the program has it, with the par branches in it, each of which is a function of its own.
//!
//! `specs/Functions.antt` says what a function is made of, `specs/Branches.antt` what the branches in it are. Typing rule 18 of
//! shared locals is asked here.
#![tactic(auto)]

mod branch;
mod branches;
mod frame;
mod function;
mod locals;
mod numbers;
mod opened;
mod outline;
mod own;
mod place;
mod rule;
mod site;
mod texts;

pub use branch::NumberedBranch;
pub use function::{TypedFunction, typed_function};
pub use numbers::FunctionNumbers;

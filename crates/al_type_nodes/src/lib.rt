//! What names, members and objects in expressions are, and what uses make of them: each typing rule that declarations decide
//! of one node whose parts are typed.
//!
//! The rules are in `specs/Rules.antt`, one predicate for each sentence; the other files say of which nodes they are asked.
#![tactic(auto)]

mod calls;
mod found;
mod members;
mod names;
mod refusal;
mod rules;
mod uses;

pub use calls::{arrow_receiver, dot_receiver, parameters_behind, returns_behind};
pub use found::Found;
pub use members::{arrow, dot, function_in};
pub use names::{copies, declared, named, number_of};
pub use refusal::lacking;
pub use rules::rule_5_is_defined;
pub use uses::{addressed, dropped, operand, place_of, placed, sized, value};

//! The functions that adts and instances of adts have of their own, with their types, by typing rules 2 and 11, and by those
//! that are asked of the types in adts.
//!
//! The rules are in `specs/Rules.antt`, one predicate each; `specs/Owned.antt`, `specs/Heads.antt` and `specs/Functions.antt` say
//! of what they are asked.
#![tactic(auto)]

mod body;
mod definition;
mod heads;
mod own_adt;
mod owned;
mod rules;
mod searches;

pub use definition::functions;

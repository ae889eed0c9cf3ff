//! What the body of a function or of a par branch declares and writes, in text order: its locals with their types, the string
//! constants that have blocks, the types of casts and sizeof, and how many labels it has; with the breaks of typing rules 7,
//! 16, 18 and 20 of all types that are written in it.
//!
//! A branch of a par is a function of its own: its locals and labels are not those of the function round it, and what is
//! written in it belongs to that one too. Of the initializers of globals `push_expression` gathers the same.
#![tactic(auto)]

mod expression;
mod gathered;
mod parts;
mod statement;

pub use expression::push_expression;
pub use parts::{DeclaredLocal, Parts, WrittenText};
pub use statement::body_parts;

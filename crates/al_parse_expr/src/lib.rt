//! The parser of expressions.
#![tactic(auto)]

mod assignment;
mod binary;
mod calls;
mod operand;
mod post;
mod rules;
mod unary;
mod within;
mod words;

pub use calls::expr;
pub use within::{
    after_assignment, after_first, after_name, after_paren, after_unary, assignment_within,
    expression_within, list_within, operand_within,
};
pub use words::begins_value;

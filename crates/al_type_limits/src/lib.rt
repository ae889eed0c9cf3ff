//! How many levels and parts the types of a text have, and the limits on both, which are asked of the tree before anything else
//! is. A typedef counts by what it stands for.
#![tactic(auto)]

mod by_name;
mod expression;
mod item;
mod limit;
mod measure;
mod member;
mod size;
mod statement;
mod types;

pub use limit::{TypeLimit, TypesStop};
pub use measure::types_within;
pub use size::Size;

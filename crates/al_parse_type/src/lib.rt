//! The parser of bounds, types and declarators.
#![tactic(auto)]

mod base;
mod bound;
mod calls;
mod leaf;
mod list;
mod part;
mod types;
mod within;

pub use base::sees_type;
pub use bound::bound_within;
pub use calls::{atype, dcl};
pub use leaf::{number_at, other_name, sees_other_name, sees_type_name, token_bytes};
pub use list::{bounds_from, dcl_within, stars_from};
pub use part::{Part, ReadBase};
pub use within::{
    arguments_within, base_within, inside_within, starred_within, tuple_within, type_behind,
    type_within,
};

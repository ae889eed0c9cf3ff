//! Types that are the same, kinds of arithmetic, and conversions of values (rule 33).
#![tactic(auto)]

mod conversion;
mod kind;
mod literal;
mod sameness;

pub use conversion::{converts, nil_in, pointers_convert, takes_nil, type_converts};
pub use kind::{
    common, element_of, is_array, is_channel, is_function, is_integer, is_scalar, is_void,
    items_of, kind_of, points_to_complete, promoted,
};
pub use literal::Literal;
pub use sameness::{is_of_kind, parts_of, pointed, same, same_kind, same_list};

//! The types with members of a text as a program has them: in an order in which those that stand in others by value come
//! earlier, each with its size, its alignment and its units, by typing rules 7, 16 and 18.
//!
//! The rules are in `specs/Rules.antt`, one predicate each; `specs/Rows.antt` says of what they are asked.
#![tactic(auto)]

mod lookup;
mod order;
mod part;
mod row;
mod ty;

pub use lookup::form_of_instance;
pub use row::{LaidOut, laid_out};
pub use ty::{member_ty, number_of_form, ty_of, type_of_form};

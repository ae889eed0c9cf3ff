//! Values of variables as text, for a reader: integers in decimal by their type, pointers and channels as `0x` with eight
//! hexadecimal digits, tuples, aggrs, adts and arrays as their parts in parentheses, unions as their units.
//!
//! `specs/Values.antt` says what a value is shown as.
#![tactic(auto)]

mod number;
mod value;
mod width;

pub use number::{put_decimal, put_pointer};
pub use value::put_value;

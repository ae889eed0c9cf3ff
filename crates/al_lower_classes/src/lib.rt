//! Classes of functions: those of one type, which pointers of the type may name.
#![tactic(auto)]

mod classes;

pub use classes::{class_number, pointed_class};

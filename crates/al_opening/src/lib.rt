//! What the first world of a program begins with: a store with the blocks of its globals and strings.
//!
//! `specs/Opening.antt` says what the numbers of a program have to keep to, so that words have room for them.
#![tactic(auto)]

mod global;
mod store;

pub use store::{FirstStore, opening};

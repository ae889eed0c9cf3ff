//! What is done with typed places: how they are read, assigned and changed, and what makes a place.
//!
//! `specs/Places.antt` says of which nodes the rules of `al_operands` are asked, and what these nodes give.
#![tactic(auto)]

mod change;
mod element;
mod read;

pub use change::{assigned, stepped, updated, zeroed};
pub use element::{index, indirection};
pub use read::{address, loaded, size_of_place};

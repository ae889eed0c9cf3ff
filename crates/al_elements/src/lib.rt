//! The elements of the channel types that a text names, as its program lists them.
#![tactic(auto)]

mod element;
mod named;

pub use element::elements_in;
pub use named::elements;

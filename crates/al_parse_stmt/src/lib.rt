//! The parser of items and of whole texts.
#![tactic(auto)]

mod adts;
mod ahead;
mod begun;
mod calls;
mod fault;
mod heads;
mod items;
mod known;
mod names;
mod reader;

pub use calls::parse;

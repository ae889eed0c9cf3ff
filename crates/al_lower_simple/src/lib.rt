//! The operations of statements that have no statement in them and are gone through from their start to their end.
#![tactic(auto)]

mod block;
mod returns;
mod starts;
mod statement;
mod storage;

pub use block::{any_shared, frees_block, has_block};
pub use statement::simple;

//! What names in several files stand in the way of one text: reserved ones, types that differ, functions defined twice.
#![tactic(auto)]

mod against;
mod at;
mod defined;
mod doubled;
mod kept;
mod note;
mod notes;

pub use against::differs;
pub use at::At;
pub use doubled::twice;
pub use kept::reserved;

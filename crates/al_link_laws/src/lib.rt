//! Laws on the one text of several files.
#![tactic(auto)]

mod law;

pub use law::own_text_law;

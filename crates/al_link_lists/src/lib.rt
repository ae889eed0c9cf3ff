//! A list of file names: a text with a name on each line.
//!
//! The definition is in `specs/Lists.antt`.
#![tactic(auto)]

mod line;
mod reading;
mod stop;

pub use reading::read_list;
pub use stop::ListStop;

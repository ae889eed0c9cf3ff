//! Schedules as text: a first line, and then a line for each entry.
#![tactic(auto)]

mod line;
mod lines;
mod reading;
mod sending;
mod stop;
mod writing;

pub use reading::read;
pub use stop::TraceStop;
pub use writing::write;

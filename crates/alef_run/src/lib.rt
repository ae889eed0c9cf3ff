//! The command `alef` as one call: words, a host and two sinks in, a report out.
#![tactic(auto)]

mod along;
mod build;
mod call;
mod compiling;
mod exec;
mod image;
mod law;
mod record;
mod replay;
mod rounds;
mod run;
mod sample;

pub use alef_texts::{End, Report, ScheduleFault};
pub use call::alef;
pub use law::replays_are_as_recorded;

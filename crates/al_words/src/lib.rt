//! From the words of a command line to the job that they name.
//!
//! `clap` reads the words as one simple command. What they must be after that is this project's own: `job_of` in
//! `specs/Job.antt`.
#![tactic(auto)]

mod command;
mod job;
mod number;
mod read;
mod stop;

pub use job::{Job, Mode, Name};
pub use read::read_job;
pub use stop::{WordsFault, WordsStop};

//! Harts: the machine's run of a task from one answer to its next ask.
#![tactic(auto)]

mod begin;
mod call;
mod copying;
mod execute;
mod laws;
mod lines;
mod memory;
mod micros;
mod records;
mod resuming;
mod run;
mod runs;
mod state;
mod step;
mod talk;
mod windows;
mod words;

pub use laws::{fitting_answers_can_be_taken, harts_stay_proper, stretches_end};
pub use run::{Asked, Hart, Held, Privates, resume, stretch};
pub use state::Waits;

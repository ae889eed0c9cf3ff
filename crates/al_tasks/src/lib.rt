//! The tasks of a program that is walked, by their names, and the private globals of its procs.
#![tactic(auto)]

mod privates;
mod tasks;

pub use privates::{Privates, fresh_privates, privates_in, put_privates};
pub use tasks::{Held, Tasks, no_tasks, put_task, take_task, task_in};

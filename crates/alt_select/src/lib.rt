//! What a talk can go with, and what it does.
#![tactic(auto)]

mod answer;
mod going;
mod pairs;
mod talk;

pub use answer::{Fired, Woke};
pub use pairs::ready;
pub use talk::{block, fire};

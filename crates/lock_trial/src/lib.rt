//! A small value under the store lock, and its workers. The tests run them on several threads.
#![tactic(auto)]

mod crew;
mod desk;
mod errand;

pub use crew::{Worker, dismiss, hire};
pub use desk::Desk;
pub use errand::{lend, settle};

#[cfg(test)]
mod tests;

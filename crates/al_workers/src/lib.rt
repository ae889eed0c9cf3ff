//! Workers: several threads run a world at once, and one history holds.
//!
//! The world lies under the store lock. A worker takes the turn to pick a proc and again to do what its task asks; what a
//! task does between two asks it does outside the lock. `docs/world.md` says more.
#![tactic(auto)]

mod crew;
mod rest;
mod several_workers;
mod turns;
mod worker;

pub use several_workers::round;

//! Clocks: what an entry of a run knows of all others, by one number for each proc.
//!
//! `specs/Clocks.antt` says how the clocks of a run follow from what its entries did, and [`clocks_tell_paths`] is the law that
//! they tell just which entries come before which. A [`Clock`] is one of them, with its numbers shared where nothing new was
//! learned.
#![tactic(auto)]

mod clock;
mod laws;

pub use clock::Clock;
pub use laws::clocks_tell_paths;

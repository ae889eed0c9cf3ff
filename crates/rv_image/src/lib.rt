//! Images as bytes: programs for the machine, written, read and brought up to date.
#![tactic(auto)]

mod fault;
mod front;
mod header;
mod migrating;
mod reading;
mod writing;

pub use fault::{ImageFault, ImageStop};
pub use front::{enough, fronts_suffice};
pub use migrating::migrate;
pub use reading::read;
pub use writing::write;

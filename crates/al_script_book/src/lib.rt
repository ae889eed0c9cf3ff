//! Channels, the waiting list and procs, kept in the plainest way.
//!
//! Each definition of the world has one small function here, over lists that are copied freely, and its contract is that
//! definition.
#![tactic(auto)]

mod book;
mod chans;
mod copies;
mod held;
mod names;
mod offers;
mod pairs;
mod procs;
mod talks;
mod went;

pub use book::{Book, Channel, Offer};
pub use chans::{can_recv, can_send, gives_up, makes};
pub use copies::{copy_start, copy_values, copy_words, list_of_one};
pub use names::{TalkName, TaskName, same_task};
pub use offers::blocks;
pub use procs::{
    Ended, ProcState, ends, first_ready, is_full, is_over_live, joins_ready, leaves_ready,
    new_proc, starts_in_proc,
};
pub use talks::{Fired, fires};
pub use went::{Passage, Went, Woken};

//! Channels and the waiting list.
#![tactic(auto)]

mod book;
mod chan;
mod channels;
mod fault;
mod links;
mod queues;

pub use book::{Book, Shape, Waiter};
pub use chan::Chan;
pub use fault::ChanFault;

//! Emits the instructions of calls and returns: of functions by their numbers and by pointers, and what a function begins with.
#![tactic(auto)]

pub mod calls;

//! Worlds of programs that have opened: the addresses of such a program are words, and none of its tasks is ever stuck. The definitions are in
//! specs/; the functions here do nothing, and their contracts are laws.
#![tactic(auto)]

mod laws;

pub use laws::{opened_programs_have_addresses, tasks_are_never_stuck};

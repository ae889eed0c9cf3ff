//! The source meaning of typed programs. The definitions are in specs/; the functions here do nothing, and their contracts
//! are laws.
#![tactic(auto)]

mod laws;

pub use laws::{tasks_ask_as_told, tasks_come_to_actions};

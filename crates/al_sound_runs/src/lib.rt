//! What is promised of the program of each text that is accepted, in all its runs. The functions here do nothing, and their contracts are laws.
#![tactic(auto)]

mod laws;

pub use laws::{accepted_texts_are_never_stuck, blocks_of_accepted_texts_stand};

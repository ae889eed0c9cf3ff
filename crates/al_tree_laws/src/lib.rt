//! What is true of every tree that a text has. The functions here do nothing, and their contracts are laws.
#![tactic(auto)]

mod laws;

pub use laws::{bases_are_plain, declared_are_few, texts_are_few, unions_have_members};

//! The program of each text that is accepted is well typed with its names: each number in it leads to the row that its name stands for, and each jump
//! to its target. The functions here do nothing, and their contracts are laws.
#![tactic(auto)]

mod few;
mod law;

pub use few::texts_have_few_functions;
pub use law::accepted_texts_are_well_typed;

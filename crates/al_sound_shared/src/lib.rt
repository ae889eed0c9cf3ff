//! The locals that are shared: those whose address is taken, and those of a function that the branches of its pars name. The functions here do
//! nothing, and their contracts are laws.
#![tactic(auto)]

mod laws;

pub use laws::shared_are_marked;

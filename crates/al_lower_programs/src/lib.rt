//! A well-typed program is lowered, where its expressions are: the operations of the whole program ask what its meaning says. All
//! is in proofs/.
#![tactic(auto)]

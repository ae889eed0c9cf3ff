//! A function at work: what is claimed of the functions that it calls and of the expressions in it, and what its simple
//! statements, conditions and loops do then. All is in proofs/.
#![tactic(auto)]

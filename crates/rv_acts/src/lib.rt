//! Why harts follow actions of the world and texts that are composed: lemmas on the instructions of each, in proofs/.
#![tactic(auto)]

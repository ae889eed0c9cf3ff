//! Why harts follow jumps, turns, calls and returns: lemmas on the instructions of each, in proofs/.
#![tactic(auto)]

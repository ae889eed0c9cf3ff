//! Why harts follow conversions to integers of at most 32 bits; and, for operations on pairs of words, what their instructions
//! and routines compute, and how a result comes to its slots: lemmas in proofs/.
#![tactic(auto)]

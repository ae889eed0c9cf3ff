//! The operations of `proc`, `task` and `par` start what these statements start. All is in proofs/.
#![tactic(auto)]

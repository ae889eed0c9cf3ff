//! A constant expression means its constant, so that it may be folded. All is in proofs/.
#![tactic(auto)]

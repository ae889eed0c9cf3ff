//! The operations of `switch` do what it means. All is in proofs/.
#![tactic(auto)]

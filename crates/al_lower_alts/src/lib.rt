//! The operations of `alt` do what it means. All is in proofs/.
#![tactic(auto)]

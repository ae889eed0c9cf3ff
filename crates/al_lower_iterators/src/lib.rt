//! The operations of statements with iterators do what these mean. All is in proofs/.
#![tactic(auto)]

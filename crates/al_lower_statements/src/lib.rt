//! The operations of every statement do what the statement means, and those of a function what the function means, where its
//! expressions do. All is in proofs/.
#![tactic(auto)]

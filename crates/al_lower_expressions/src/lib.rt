//! The operations of every well-typed expression do what it means. All is in proofs/.
#![tactic(auto)]

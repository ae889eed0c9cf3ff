//! The operations of prints do what prints mean. All is in proofs/.
#![tactic(auto)]

//! The operations of expressions that change variables, store, call, communicate or print do what the expressions mean. All is
//! in proofs/.
#![tactic(auto)]

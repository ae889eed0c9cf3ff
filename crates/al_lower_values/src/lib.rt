//! The operations of expressions that compute do what the expressions mean: operators, loads, addresses, conversions, rows.
//! All is in proofs/.
#![tactic(auto)]

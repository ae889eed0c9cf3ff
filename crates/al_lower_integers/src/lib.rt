//! The operations of constants, negations and conversions of integers do what the expressions mean. All is in proofs/.
#![tactic(auto)]

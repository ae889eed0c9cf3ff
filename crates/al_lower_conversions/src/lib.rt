//! Conversions do in operations what they mean: integers of all kinds, single words, and tuples part by part. All is in proofs/.
#![tactic(auto)]

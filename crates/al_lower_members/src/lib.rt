//! Members of values do in operations what they mean: each of their units lies within one unit of the whole. All is in proofs/.
#![tactic(auto)]

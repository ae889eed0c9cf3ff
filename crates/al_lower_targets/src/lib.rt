//! Assignments to tuples of targets do in operations what they mean. All is in proofs/.
#![tactic(auto)]

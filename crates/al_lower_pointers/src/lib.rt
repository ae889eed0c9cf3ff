//! Calls through pointers do in operations what they mean. All is in proofs/.
#![tactic(auto)]

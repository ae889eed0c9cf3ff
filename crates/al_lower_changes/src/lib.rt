//! Changes of variables and of what stands in storage do in operations what they mean: `op=`, steps, and zeroing. All is in proofs/.
#![tactic(auto)]

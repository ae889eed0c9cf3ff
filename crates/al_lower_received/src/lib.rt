//! What an alt received goes into its target: the operations do what this means. All is in proofs/.
#![tactic(auto)]

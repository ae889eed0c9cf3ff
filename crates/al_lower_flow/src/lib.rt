//! The operations of statements do what the statements mean: loops, choices, jumps and labels.
#![tactic(auto)]

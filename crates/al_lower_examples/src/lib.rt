//! Worked programs as operations, as theorems: what the operations of small functions are, and that runs of whole programs agree
//! with their meaning along a schedule. Nothing here runs.
#![tactic(auto)]

//! What is claimed of the operations of expressions and places, and how they move values. All is in specs/ and proofs/.
#![tactic(auto)]

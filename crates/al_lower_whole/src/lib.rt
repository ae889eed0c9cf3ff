//! Every well-typed program whose addresses are words is lowered: what is claimed of its expressions, and what its statements ask of
//! them, joined. All is in proofs/.
#![tactic(auto)]

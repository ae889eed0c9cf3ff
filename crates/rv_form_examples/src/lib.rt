//! Programs of operations whose code the definitions compute: on the machine it asks what the operations ask. They stand as
//! theorems in proofs/.
#![tactic(auto)]

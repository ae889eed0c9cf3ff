//! How functions begin and end: their operations do what the beginning, a return, a call in the place of a function and the end
//! of its body mean. All is in proofs/.
#![tactic(auto)]

//! What each operation does to a run that goes on behind it: the run of a task through the operations of a function against
//! the meaning that is told the answers. All is in specs/ and proofs/; lowering is proved over it.
#![tactic(auto)]

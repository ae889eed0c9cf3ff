//! Why harts follow talks on channels, and starts of procs, tasks and branches of par: lemmas in proofs/.
#![tactic(auto)]

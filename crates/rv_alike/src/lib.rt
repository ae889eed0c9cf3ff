//! Why an image's harts follow all operations of a program: what an image has to have for it is `IsLaidOut` in specs/, and the
//! lemmas are in proofs/.
#![tactic(auto)]

//! Why harts follow calls of functions through pointers: a dispatcher finds the function by comparisons, lemmas in proofs/.
#![tactic(auto)]

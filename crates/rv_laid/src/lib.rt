//! Why an image that was made of a program is laid out as harts need it to follow: lemmas in proofs/.
#![tactic(auto)]

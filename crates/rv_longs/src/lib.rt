//! Why harts follow operations on words of 64 bits, and conversions to integers of 64 bits: lemmas in proofs/.
#![tactic(auto)]

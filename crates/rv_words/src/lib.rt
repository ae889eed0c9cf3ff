//! Why harts follow operations on words, pairs of words and addresses: lemmas on the instructions of each, in proofs/.
#![tactic(auto)]

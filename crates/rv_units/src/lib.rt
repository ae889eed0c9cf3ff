//! Why harts follow operations that go through several words: those that zero slots, and those that load, store and clear the
//! units of a value: lemmas in proofs/.
#![tactic(auto)]

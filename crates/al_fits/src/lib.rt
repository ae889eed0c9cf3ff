//! The numbers of programs of sound types within the measures fit in words. The definitions are in specs/; the function here
//! does nothing, and its contract is the law.
#![tactic(auto)]

mod laws;

pub use laws::numbers_fit;

//! The image of the program of each text that is accepted runs as the text means. The function here does nothing, and its contract is the law.
#![tactic(auto)]

mod law;

pub use law::accepted_texts_run_as_meant;

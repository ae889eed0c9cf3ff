//! What is known of the program of each text that is accepted: its types are sound, and it is short. The function here does nothing, and its
//! contract is the law.
#![tactic(auto)]

mod law;

pub use law::accepted_texts_are_sound;

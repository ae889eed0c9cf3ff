//! Emits instructions, piece by piece, as the definitions of `rv_form` have them: where slots live, the pieces that many
//! operations have, and the operations on words.
//!
//! Each function here adds a piece at the end of the code, and its contract says which.
#![tactic(auto)]

pub mod homes;
pub mod instrs;
pub mod pieces;
pub mod words;

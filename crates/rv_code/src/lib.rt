//! What all generated code is made of: where the words of slots live, operands at any home, jumps of every reach, pieces of
//! code behind one another with their lines; and, in proofs/, what a hart does that runs them.
#![tactic(auto)]

mod home;
mod laws;
mod reach;

pub use home::Home;
pub use laws::{each_piece_has_its_line, harts_ask_what_they_come_to};
pub use reach::Reach;

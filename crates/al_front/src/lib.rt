//! From the bytes of a text to its typed program, or to the reason why it is refused.
//!
//! `specs/Accepted.antt` says which texts are accepted with which program, and when each refusal comes.
#![tactic(auto)]

mod law;
mod refused;
mod stage;
mod whole;

pub use law::acceptance_laws;
pub use refused::{FrontStop, Refused};
pub use whole::front;

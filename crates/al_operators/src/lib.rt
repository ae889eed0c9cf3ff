//! What operators, casts, channel operations, print and sizeof give on operands that are typed, with every conversion as a node.
//!
//! `specs/Operators.antt` says of which nodes the rules of `al_operands` are asked, and what these nodes give;
//! `specs/Formats.antt` says what the format of a print is.
#![tactic(auto)]

mod between;
mod channel;
mod integer;
mod print;
mod sum;
mod truth;

pub use between::binary;
pub use channel::{can_receive, can_send, cast, received, sent};
pub use integer::{complement, signed};
pub use print::{pieces, printable, printed, terminated};
pub use truth::{condition, negation, size_of_type, size_of_value, used};

//! One worker runs a world on, by a gate; what is later in its run.
#![tactic(auto)]

mod gate;
mod law;
mod one_worker;

pub use gate::{Gate, OpenGate};
pub use law::output_stays;
pub use one_worker::go_alone;

//! The world of an image.
#![tactic(auto)]

mod answers;
mod births;
mod doing;
mod last;
mod limits;
mod machinery;
mod order;
mod plain;
mod sends;
mod sharing;
mod start;
mod talks;
mod turn;
mod world;

pub use answers::{After, Next, StepFault};
pub use limits::Limits;
pub use sends::world_goes;
pub use sharing::Terms;
pub use world::World;

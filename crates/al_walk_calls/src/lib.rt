//! Steps of calls, and of the starts and ends of functions.
#![tactic(auto)]

mod begins;
mod calls;
mod ends;
mod enters;
mod named;
mod passes;
mod room;
mod rows;

pub use begins::start;
pub use calls::{invoke, invoke_instead, invoke_pointer, replace, set_block, take_block};
pub use ends::{count_return, ends_body, leave, resume, returns, with_given};
pub use enters::{enter, enter_instead};
pub use passes::{pass_part, pass_place, pass_pointer};

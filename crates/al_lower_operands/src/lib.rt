//! What is known of expressions and places before any operation is made: constants, the slots that values stand in already,
//! and whether variables stay as they are.
#![tactic(auto)]

mod constants;
mod keeping;
mod pointers;
mod variables;

pub use constants::{folded, is_truth, known};
pub use keeping::{keeps, object_keeps, place_keeps, row_keeps};
pub use pointers::{leads, place_at, stands};
pub use variables::{global_address, is_private};

//! What is done with values and places that were found: the operations of each form of expression behind those of its parts.
#![tactic(auto)]

mod finds;
mod joins;
mod locals;
mod objects;
mod pieces;
mod printing;
mod same;
mod steps;
mod takes;
mod updates;
mod uses;
mod wanted;

pub use finds::{Find, base_slot, free_for, use_place};
pub use joins::{Join, advance, first_words, join_values};
pub use locals::local_at;
pub use objects::{free_behind_pointed, pass_behind};
pub use pieces::{compares_words, count_of, false_behind, is_integer, skipped, true_before};
pub use printing::print_pieces;
pub use same::{Form, form_of, is_back, sign_of};
pub use steps::{Step, step_found, step_slots};
pub use takes::{Take, take_part, whole_at};
pub use updates::{Changing, begin_update, change_by, change_constant, end_update};
pub use uses::{Use, use_value};
pub use wanted::{called, called_pointer, kept};

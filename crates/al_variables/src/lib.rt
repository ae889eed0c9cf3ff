//! Where the variables of a typed program stand, and what its types say of their values.
#![tactic(auto)]

mod globals;
mod kinds;
mod locals;
mod members;
mod privates;
mod word;

pub use globals::{global_place, text_place};
pub use kinds::{has_room, kind_of, pointee_size, small_size};
pub use locals::{local_offset, locals_of, round_of};
pub use members::{Part, part_at, path_offset, pointee_offset};
pub use privates::{private_value, with_private};
pub use word::{few_words, word_at, word_of};

//! The one text of several files: their tokens, with the names that belong to one file made apart and each type item once.
//!
//! The definition is in `specs/Linked.antt`.
#![tactic(auto)]

mod file;
mod items;
mod texts;
mod words;
mod writing;

pub use file::File;
pub use items::{is_type_item, own_count, own_names};
pub use texts::Texts;
pub use words::{bytes_of, item_text};
pub use writing::linked;

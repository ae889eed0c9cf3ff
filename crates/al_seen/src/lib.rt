//! What an entry does, as far as it orders entries and touches shared storage.
//!
//! [`Seen`] says it of one entry; `specs/Seeing.antt` defines it by the world before the entry, for tasks of any kind.
#![tactic(auto)]

mod seen;

pub use seen::{Access, Placed, Seen, Went};

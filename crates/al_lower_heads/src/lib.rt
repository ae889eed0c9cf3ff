//! Conditions, iterators, and the heads of switches and alts as operations, and how many operations these are.
#![tactic(auto)]

mod alts;
mod conditions;
mod iterators;
mod received;
mod sizes;
mod switches;

pub use alts::alt_head;
pub use conditions::{effect_at, optional_effect, optional_test, test};
pub use iterators::iterated;
pub use sizes::{
    alt_size, iterated_size, optional_effect_size, optional_size, switch_size, test_size,
};
pub use switches::{CasePlace, switch_head};

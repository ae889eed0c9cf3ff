//! A lock round a value that carries its own history. Each worker has a pass, which knows what that worker added.
//!
//! The lock is one word and one slot of an `atomic_table`. The word is twice the number of entries of the value's
//! history, plus one while a worker holds the turn; the slot holds the value, and is empty while the turn is held.
//! `docs/lock.md` says what the lock promises and which atomic steps it makes.
#![tactic(auto)]

mod kept;
mod known;
mod lock;
mod pass;
mod rule;
mod sends;
mod steps;
mod turn;

pub use kept::Kept;
pub use lock::StoreLock;
pub use pass::Pass;
pub use turn::Turn;

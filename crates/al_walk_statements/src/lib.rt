//! Steps of a task that do statements: what they begin with, and iterators.
#![tactic(auto)]

mod iterators;
mod statements;
mod works;

pub use iterators::{bound, iterate, next_turn};
pub use statements::{
    do_alloc, do_alt, do_block, do_break, do_check, do_continue, do_declare, do_do, do_for, do_par,
    do_return, do_unalloc, do_value, evaluates_then,
};

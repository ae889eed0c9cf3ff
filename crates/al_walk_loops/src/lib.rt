//! Steps of a task for bodies, loops, checks and ifs.
#![tactic(auto)]

mod bodies;
mod conditions;
mod evaluations;
mod loops;

pub use bodies::{put_statements, with_body, with_statement};
pub use conditions::{choose, test};
pub use evaluations::{evaluation, with_dropped};
pub use loops::{
    again, do_condition, do_test, for_again, for_condition, for_next, for_test, optional_then,
    starts, starts_then, while_test,
};

//! What a world answers.

use rv_exec::Held;

/// What a worker may do next.
#[derive(Debug, Drop)]
pub enum Next {
    /// Run this task up to its next action.
    Held(Held),
    /// Wait for the others: each proc with a ready task is away.
    Others,
    /// Stop: there are as many entries as there may be, those counted that may come of the procs that are away.
    Full,
    /// Stop: the world is over.
    Over,
}

/// What came of an action.
#[derive(Debug, Drop)]
pub enum After {
    /// The same proc goes on: run this task up to its next action.
    Held(Held),
    /// Nothing is lent to the worker any more.
    Idle,
    /// The world is over, and nothing is lent to the worker any more.
    Over,
}

/// Why an entry was refused.
#[derive(Clone, Copy, Debug, Drop, PartialEq, Eq)]
pub enum StepFault {
    /// The proc has no ready task, or the pick is out of range.
    NotPermitted,
    /// The world is over.
    Over,
    /// There was no memory.
    NoMemory,
}

//! What is left to do of an action.

use al_base::Trap;
use rv_exec::{Hart, Privates};

/// How an action ends the world.
#[derive(Clone, Copy, Debug, Drop, PartialEq, Eq)]
pub enum Stop {
    Trap(Trap),
    Status(i32),
}

/// The first task of a new proc, with the proc's private globals.
#[derive(Debug, Drop)]
pub struct Begun {
    pub hart: Hart,
    pub privates: Privates,
}

/// What is left to do of an action once it is permitted, and all memory that it takes is there.
#[derive(Debug, Drop)]
pub enum Prepared {
    /// The task goes on with this word, or with none.
    Answer(Option<u32>),
    /// The world is over.
    Stop(Stop),
    /// A talk goes by the pair that was picked.
    Goes,
    /// A talk waits.
    Waits,
    /// A task starts in the same proc.
    Task(Hart),
    /// A proc starts.
    Proc(Begun),
    /// Procs start, and the task waits for them.
    Par(Vec<Begun>),
    /// The task ends.
    End,
}

/// Why an action was not done.
#[derive(Clone, Copy, Debug, Drop, PartialEq, Eq)]
pub enum Refused {
    /// The pick is out of range.
    NotPermitted,
    /// There was no memory.
    NoMemory,
}

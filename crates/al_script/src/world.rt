// A world of scripts, in plain lists.

use crate::script::Control;
use al_base::Over;
use al_event::Bytes;
use al_items::Items;
use al_script_book::{Book, ProcState, TaskName, Went};
use al_store::Store;

/// What actions see and change. `started` has how many tasks were started in each proc, by the procs'
/// numbers.
#[derive(Drop)]
pub struct State {
    pub store: Store,
    pub book: Book,
    pub procs: Items<ProcState>,
    pub started: Items<u32>,
    pub output: Bytes,
    pub went: Items<Went>,
    pub over: Option<Over>,
}

/// The entries that were made: how many, how many of each proc by the procs' numbers, and the line of the action that trapped,
/// else 0.
#[derive(Debug, Drop)]
pub struct Made {
    pub entries: u32,
    pub of_procs: Items<u32>,
    pub line: u64,
}

/// A task that was not started, one that goes on, or one that waits for the answer to its action.
#[derive(Debug, Drop)]
pub enum Held {
    Absent,
    Goes(Control),
    Waits(Control),
}

/// What a task became.
#[derive(Debug, Drop)]
pub struct Change {
    pub task: TaskName,
    pub held: Held,
}

/// A world: what all can see, and what became of the tasks, the latest first.
#[derive(Drop)]
pub struct World {
    pub state: State,
    pub made: Made,
    pub tasks: Items<Change>,
}

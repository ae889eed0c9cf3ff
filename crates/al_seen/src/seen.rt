// What was seen of an entry.

use al_script_book::TaskName;

/// A load or a store that did not trap: the bytes from address `at` on, 1, 2 or 4 of them.
#[derive(Debug, Clone, Copy, PartialEq, Eq)]
pub struct Access {
    pub at: u32,
    pub size: u8,
    pub store: bool,
}

/// A block that was placed: the bytes from address `at` on.
#[derive(Debug, Clone, Copy, PartialEq, Eq)]
pub struct Placed {
    pub at: u32,
    pub bytes: u32,
}

/// The branch of a talk that went: its channel, whether this has a buffer, and whether the branch sends.
#[derive(Debug, Clone, Copy, PartialEq, Eq)]
pub struct Went {
    pub chan: u32,
    pub buffered: bool,
    pub send: bool,
}

/// What an entry does: the task that made it, its access to shared storage, the block that it placed, how many procs it
/// started, the branch by which its own talk went, and the task that it made ready. That is the task whose talk went with this
/// one, or the task whose par ended.
#[derive(Debug, Clone, Copy, PartialEq, Eq)]
pub struct Seen {
    pub task: TaskName,
    pub access: Option<Access>,
    pub placed: Option<Placed>,
    pub started: u32,
    pub went: Option<Went>,
    pub woke: Option<TaskName>,
}

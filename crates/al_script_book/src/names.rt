// What tasks and talks are called by.

ghost use Rattle.std.specs.Prelude.{◌≡◌};
ghost use Rattle.al_world.specs.World.{same_talker, same_task};

use std::marker::Model;

/// A task: its proc, and its number among that proc's tasks, from 0.
#[derive(Debug, Clone, Copy, PartialEq, Eq)]
pub struct TaskName {
    pub proc: u32,
    pub number: u32,
}

impl Model for TaskName {
    ghost use Rattle.al_world.specs.World.{TaskName as Name};

    ghost Value = { Name };

    ghost view = { λ t. record { proc = t.proc; number = t.number } };

    ghost inverse = { λ t. record { proc = t.proc; number = t.number } };
}

/// A talk: the task that asked it, and its entry's number among that proc's entries, from 0.
#[derive(Debug, Clone, Copy, PartialEq, Eq)]
pub struct TalkName {
    pub task: TaskName,
    pub entry: u32,
}

impl Model for TalkName {
    ghost use Rattle.al_world.specs.World.{TalkName as Name};

    ghost Value = { Name };

    ghost view = { λ t. record { task = t.task; entry = t.entry } };

    ghost inverse = { λ t. record { task = t.task; entry = t.entry } };
}

/// Whether two talks are of one task.
pub fn same_talker(a: TalkName, b: TalkName) -> bool
    ensures { result ≡ same_talker a b }
{
    same_task(a.task, b.task)
}

/// Whether two names are of one task.
pub fn same_task(a: TaskName, b: TaskName) -> bool
    ensures { result ≡ same_task a b }
{
    a.proc == b.proc && a.number == b.number
}

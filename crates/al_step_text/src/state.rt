//! What tasks do.
ghost use Rattle.std.specs.Prelude.{◌≡◌, ◌++◌, OnOk};
ghost use Rattle.std.specs.List.{list_any};
ghost use Rattle.al_world.specs.World.{same_task as is_same};
ghost use Rattle.al_step_text.specs.StepText as spec;

use al_base::{NoMemory, Over};
use al_event::Bytes;
use al_script_book::{Offer, ProcState, TaskName, same_task};

/// What a task that lives does.
#[derive(Clone, Copy, Debug, PartialEq, Eq)]
pub enum TaskState {
    /// It is in the ready list of its proc.
    Ready,
    /// It is in the waiting list.
    Blocked,
    /// It waits for the branches of a par.
    Joining,
}

fn has_task(tasks: &[TaskName], task: TaskName) -> bool
    ensures { result ≡ list_any (is_same task) tasks.now }
{
    tasks.iter().any(|other| same_task(task, *other))
}

fn is_ready(procs: &[ProcState], task: TaskName) -> bool
    ensures { result ≡ spec.is_ready procs.now task }
{
    procs.iter().any(|q| has_task(q.ready.as_slice(), task))
}

fn is_blocked(waiting: &[Offer], task: TaskName) -> bool
    ensures { result ≡ spec.is_blocked waiting.now task }
{
    waiting.iter().any(|offer| same_task(task, offer.by.task))
}

fn is_parent(task: TaskName, parent: Option<TaskName>) -> bool
    ensures { result ≡ spec.is_parent task parent }
{
    match parent {
        None => false,
        Some(parent) => same_task(task, parent),
    }
}

fn is_joining(procs: &[ProcState], task: TaskName) -> bool
    ensures { result ≡ spec.is_joining procs.now task }
{
    procs
        .iter()
        .any(|q| 0 < q.live && is_parent(task, q.parent))
}

/// What a task does, none where it has ended.
pub(crate) fn state_in(procs: &[ProcState], waiting: &[Offer], task: TaskName) -> Option<TaskState>
    ensures { result ≡ spec.state_in procs.now waiting.now task }
{
    if is_ready(procs, task) {
        Some(TaskState::Ready)
    } else if is_blocked(waiting, task) {
        Some(TaskState::Blocked)
    } else if is_joining(procs, task) {
        Some(TaskState::Joining)
    } else {
        None
    }
}

pub(crate) fn put_state(out: &mut Bytes, state: TaskState) -> Result<(), NoMemory>
    ensures { OnOk result (out.new ≡ out.old ++ spec.state_name state) }
{
    match state {
        TaskState::Ready => out.extend_from_slice(b"ready"),
        TaskState::Blocked => out.extend_from_slice(b"blocked"),
        TaskState::Joining => out.extend_from_slice(b"joining"),
    }
}

fn put_over_name(out: &mut Bytes, over: Over) -> Result<(), NoMemory>
    ensures { OnOk result (out.new ≡ out.old ++ spec.over_name over) }
{
    match over {
        Over::Done => out.extend_from_slice(b"Done"),
        Over::Stopped(_) => out.extend_from_slice(b"Stopped"),
        Over::Trapped { .. } => out.extend_from_slice(b"Trapped"),
        Over::Blocked => out.extend_from_slice(b"Blocked"),
        Over::Spent => out.extend_from_slice(b"Spent"),
    }
}

/// Puts the line on how the world is over.
pub(crate) fn put_over(out: &mut Bytes, over: Option<Over>) -> Result<(), NoMemory>
    ensures { OnOk result (out.new ≡ out.old ++ spec.over_line over) }
{
    match over {
        None => out.extend_from_slice(b"running\n"),
        Some(over) => {
            out.extend_from_slice(b"over ")?;
            put_over_name(out, over)?;
            out.extend_from_slice(b"\n")
        }
    }
}

// Procs and their ready lists.

ghost use Rattle.std.specs.Prelude.{◌≡◌, ◌++◌, ◌+◌, ◌-◌, ◌<◌, ◌^◌, [], ◌∷◌, None, drop, length, nat_lt, slice_get, slice_set, IfOk};
ghost use Rattle.al_world.specs.Procs.{first_of, first_ready, has_ready, new_proc, joins_ready, leaves_ready, starts_in_proc, live_tasks, is_full, loses_first, without_parent, is_parent, has_branches, joins, ends_proc, ends};
ghost use Rattle.al_world.specs.World.{TaskName as Name, same_task};

use crate::copies::list_of_one;
use crate::names::{TaskName, same_task};
use al_base::NoMemory;
use al_items::Items;
use std::alloc::Global;
use std::marker::Model;

/// A proc: its ready tasks with the one that goes next first, how many of its tasks live, and the task that waits for it.
#[derive(Debug, Drop)]
pub struct ProcState {
    pub ready: Items<TaskName>,
    pub live: u32,
    pub parent: Option<TaskName>,
}

impl Model for ProcState {
    ghost use Rattle.al_world.specs.Procs.{ProcState as View};
    ghost use Rattle.al_world.specs.World.{TaskName as Name};

    ghost Value = { View Name };

    ghost view = { λ q. record { ready = q.ready; live = q.live; parent = q.parent } };
}

impl ProcState {
    /// Whether a task is ready.
    pub fn has_ready(&self) -> bool
        ensures { result ≡ has_ready self.now }
    {
        self.ready.len() > 0
    }
}

/// The first of these tasks.
fn first_of(tasks: &[TaskName]) -> Option<TaskName>
    ensures { result ≡ first_of tasks.now }
{
    match tasks {
        [] => None,
        [task, ..] => Some(*task),
    }
}

/// The first ready task of a proc.
pub fn first_ready(procs: &[ProcState], proc: usize) -> Option<TaskName>
    ensures { result ≡ first_ready procs.now proc }
{
    let state = procs.get(proc)?;
    first_of(state.ready.as_slice())
}

/// The tasks after the first.
fn after_first(alloc: Global, tasks: &[TaskName]) -> Result<Items<TaskName>, NoMemory>
    ensures { IfOk result (λ rest. rest ≡ drop 1 tasks.now) }
{
    match tasks {
        [] => Ok(Items::new(alloc)),
        [_, rest @ ..] => Items::from_slice(alloc, rest),
    }
}

/// A proc with one task, which is ready.
pub fn new_proc(
    alloc: Global,
    parent: Option<TaskName>,
    first: TaskName,
) -> Result<ProcState, NoMemory>
    ensures { IfOk result (λ state. state ≡ new_proc parent first) }
{
    Ok(ProcState {
        ready: list_of_one(alloc, first)?,
        live: 1,
        parent,
    })
}

impl ProcState {
    /// The proc with a task at the end of its ready list.
    fn with_ready(&self, alloc: Global, task: TaskName) -> Result<ProcState, NoMemory>
        ensures { IfOk result (λ q. q ≡ record self.now { ready = self.now.ready ++ task ∷ [] }) }
    {
        let mut ready = Items::from_slice(alloc, self.ready.as_slice())?;
        ready.push(task)?;
        Ok(ProcState {
            ready,
            live: self.live,
            parent: self.parent,
        })
    }

    /// The proc without the first of its ready list.
    fn without_first(&self, alloc: Global) -> Result<ProcState, NoMemory>
        ensures { IfOk result (λ q. q ≡ record self.now { ready = drop 1 self.now.ready }) }
    {
        Ok(ProcState {
            ready: after_first(alloc, self.ready.as_slice())?,
            live: self.live,
            parent: self.parent,
        })
    }

    /// The proc with one task more, at the end of its ready list.
    fn with_task(&self, alloc: Global, task: TaskName) -> Result<ProcState, NoMemory>
        requires { self.now.live + 1 < 2 ^ 32 }
        ensures { IfOk result (λ q. q ≡ record self.now { ready = self.now.ready ++ task ∷ []; live = self.now.live + 1 }) }
    {
        let mut state = self.with_ready(alloc, task)?;
        state.live += 1;
        Ok(state)
    }

    /// The proc whose first task is no more.
    fn without_task(&self, alloc: Global) -> Result<ProcState, NoMemory>
        ensures { IfOk result (λ q. q ≡ record self.now { ready = drop 1 self.now.ready; live = self.now.live - 1 }) }
    {
        let mut state = self.without_first(alloc)?;
        state.live = state.live.saturating_sub(1);
        Ok(state)
    }

    /// The proc that no task waits for.
    fn without_parent(&self, alloc: Global) -> Result<ProcState, NoMemory>
        ensures { IfOk result (λ q. q ≡ record self.now { parent = None }) }
    {
        Ok(ProcState {
            ready: Items::from_slice(alloc, self.ready.as_slice())?,
            live: self.live,
            parent: None,
        })
    }
}

/// The procs with another one at a place.
fn set_at(procs: Items<ProcState>, proc: usize, state: ProcState) -> Items<ProcState>
    requires { proc < length procs }
    ensures { result ≡ slice_set procs proc state }
{
    let mut procs = procs;
    procs.set(proc, state);
    procs
}

/// A task joins the end of a proc's ready list.
pub fn joins_ready(
    alloc: Global,
    proc: usize,
    task: TaskName,
    procs: Items<ProcState>,
) -> Result<Items<ProcState>, NoMemory>
    ensures { IfOk result (λ after. after ≡ joins_ready proc task procs) }
{
    match procs.get(proc) {
        None => Ok(procs),
        Some(state) => {
            let state = state.with_ready(alloc, task)?;
            Ok(set_at(procs, proc, state))
        }
    }
}

/// The first task of a proc leaves its ready list.
pub fn leaves_ready(
    alloc: Global,
    proc: usize,
    procs: Items<ProcState>,
) -> Result<Items<ProcState>, NoMemory>
    ensures { IfOk result (λ after. after ≡ leaves_ready proc procs) }
{
    match procs.get(proc) {
        None => Ok(procs),
        Some(state) => {
            let state = state.without_first(alloc)?;
            Ok(set_at(procs, proc, state))
        }
    }
}

/// Whether more than so many tasks live.
#[tactic(auto, using(crate::proofs::LiveTasks::live_tasks_more))]
pub fn is_over_live(procs: &[ProcState], most: u32) -> bool
    ensures { result ≡ nat_lt most (live_tasks procs.now) }
{
    match procs {
        [] => false,
        [first, rest @ ..] => {
            if first.live > most {
                true
            } else {
                is_over_live(rest, most - first.live)
            }
        }
    }
}

/// Whether there is no room for so many more tasks.
pub fn is_full(procs: &[ProcState], more: usize) -> bool
    ensures { result ≡ is_full procs.now more }
{
    if more > 1024 {
        true
    } else {
        is_over_live(procs, 1024 - more as u32)
    }
}

/// One more task in a proc, at the end of its ready list. There is room for it.
#[tactic(auto, using(crate::proofs::LiveTasks::live_within))]
pub fn starts_in_proc(
    alloc: Global,
    proc: usize,
    task: TaskName,
    procs: Items<ProcState>,
) -> Result<Items<ProcState>, NoMemory>
    requires { live_tasks procs < 1024 }
    ensures { IfOk result (λ after. after ≡ starts_in_proc proc task procs) }
{
    match procs.get(proc) {
        None => Ok(procs),
        Some(state) => {
            let state = state.with_task(alloc, task)?;
            Ok(set_at(procs, proc, state))
        }
    }
}

/// The first task of a proc is no more.
fn loses_first(
    alloc: Global,
    proc: usize,
    procs: Items<ProcState>,
) -> Result<Items<ProcState>, NoMemory>
    ensures { IfOk result (λ after. after ≡ loses_first proc procs) }
{
    match procs.get(proc) {
        None => Ok(procs),
        Some(state) => {
            let state = state.without_task(alloc)?;
            Ok(set_at(procs, proc, state))
        }
    }
}

/// No task waits for a proc any more.
fn without_parent(
    alloc: Global,
    proc: usize,
    procs: Items<ProcState>,
) -> Result<Items<ProcState>, NoMemory>
    ensures { IfOk result (λ after. after ≡ without_parent proc procs) }
{
    match procs.get(proc) {
        None => Ok(procs),
        Some(state) => {
            let state = state.without_parent(alloc)?;
            Ok(set_at(procs, proc, state))
        }
    }
}

/// Whether this task is the one that waits.
fn is_parent(task: TaskName, parent: Option<TaskName>) -> bool
    ensures { result ≡ is_parent same_task (λ (u : Name). u.proc) task parent }
{
    match parent {
        None => false,
        Some(waits) => same_task(waits, task),
    }
}

/// Whether a proc that a task waits for has not ended.
fn has_branches(task: TaskName, procs: &[ProcState]) -> bool
    ensures { result ≡ has_branches same_task (λ (u : Name). u.proc) task procs.now }
{
    procs.iter().any(|state| is_parent(task, state.parent))
}

/// After a task ended: the procs, whether its proc ended with it, and the task that became ready by it.
#[derive(Debug, Drop)]
pub struct Ended {
    pub procs: Items<ProcState>,
    pub proc_ended: bool,
    pub woke: Option<TaskName>,
}

impl Model for Ended {
    ghost use Rattle.al_world.specs.Procs.{Ended as View};
    ghost use Rattle.al_world.specs.World.{TaskName as Name};

    ghost Value = { View Name };

    ghost view = { λ e. record { procs = e.procs; proc_ended = e.proc_ended; woke = e.woke } };
}

/// A proc ended: the task that waited for it becomes ready, unless it waits for another.
fn joins(
    alloc: Global,
    procs: Items<ProcState>,
    parent: Option<TaskName>,
) -> Result<Ended, NoMemory>
    ensures { IfOk result (λ ended. ended ≡ joins same_task (λ (u : Name). u.proc) procs parent) }
{
    match parent {
        Some(task) if !has_branches(task, procs.as_slice()) => Ok(Ended {
            procs: joins_ready(alloc, task.proc as usize, task, procs)?,
            proc_ended: true,
            woke: Some(task),
        }),
        _ => Ok(Ended {
            procs,
            proc_ended: true,
            woke: None,
        }),
    }
}

/// The proc ends where none of its tasks lives.
fn ends_proc(alloc: Global, procs: Items<ProcState>, proc: usize) -> Result<Ended, NoMemory>
    ensures { IfOk result (λ ended. ended ≡ ends_proc same_task (λ (u : Name). u.proc) procs proc (slice_get procs proc)) }
{
    match procs.get(proc) {
        Some(state) if state.live == 0 => {
            let parent = state.parent;
            let procs = without_parent(alloc, proc, procs)?;
            joins(alloc, procs, parent)
        }
        _ => Ok(Ended {
            procs,
            proc_ended: false,
            woke: None,
        }),
    }
}

/// The first task of a proc ends: the last one ends the proc, and the last proc that a task waits for makes it ready.
pub fn ends(alloc: Global, procs: Items<ProcState>, proc: usize) -> Result<Ended, NoMemory>
    ensures { IfOk result (λ ended. ended ≡ ends same_task (λ (u : Name). u.proc) procs proc) }
{
    let procs = loses_first(alloc, proc, procs)?;
    ends_proc(alloc, procs, proc)
}

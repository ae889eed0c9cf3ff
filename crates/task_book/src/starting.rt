//! New tables, procs and tasks.

ghost use Rattle.std.specs.Prelude.{◌≡◌, ◌<◌, ◌≤◌, ◌+◌, ◌^◌, ◌↔◌, ℕ, IfOk, IfSome, OnErr, Err, [], ◌∷◌, ◌++◌, Some, None, true, false, length, replicate, slice_get, slice_set, IsSome};
ghost use Rattle.std.specs.List.{range_with_len};
ghost use Rattle.al_world.specs.Procs.{live_tasks, starts_in_proc, first_ready};
ghost use Rattle.task_book.specs.Table.{home_of, is_away, live_of};
ghost use Rattle.task_book.specs.Starting.{empty, StartsTask, StartsProc, with_branch, with_branch_of};
ghost use Rattle.task_book.specs.Homes.{home_at, homes_of};

use crate::proc::{Proc, Task, place};
use crate::queue::Queue;
use crate::tasks::{StartFault, Tasks};
use al_base::NoMemory;
use rv_exec::{Hart, Privates};
use std::alloc::Global;

/// So many slots without a task.
fn no_tasks(alloc: Global, most: u32) -> Result<Vec<Option<Task>>, NoMemory>
    ensures { IfOk result (λ tasks. tasks.items ≡ replicate most None) }
{
    let mut tasks = Vec::with_capacity(alloc, most as usize)?;
    for _ in 0..most {
        tasks.push(None)?;
    }
    Ok(tasks)
}

/// The numbers of so many slots.
#[tactic(auto, using(crate::proofs::Empty::range_next))]
fn all_slots(alloc: Global, most: u32) -> Result<Vec<u32>, NoMemory>
    ensures { IfOk result (λ slots. slots.items ≡ range_with_len 0 most) }
{
    let mut slots = Vec::with_capacity(alloc, most as usize)?;
    for slot in 0..most {
        slots.push(slot)?;
    }
    Ok(slots)
}

/// Counts one more proc that a task waits for.
fn add_branch(tasks: &mut [Option<Task>], slot: u32)
    requires lives { IsSome (home_at (homes_of tasks.old) slot) }
    requires few { (x : Task) → slice_get tasks.old slot ≡ Some (Some x) → x.branches + 1 < 2 ^ 32 }
    ensures { tasks.new ≡ with_branch slot tasks.old }
{
    match &mut tasks[slot as usize] {
        Some(task) => task.branches += 1,
        None => unreachable!(),
    }
}

/// Counts one more proc that its parent waits for, if it has one.
fn join_parent(tasks: &mut [Option<Task>], parent: Option<u32>)
    requires lives { IfSome parent (λ u. IsSome (home_at (homes_of tasks.old) u)) }
    requires few { IfSome parent (λ u. (x : Task) → slice_get tasks.old u ≡ Some (Some x) → x.branches + 1 < 2 ^ 32) }
    ensures { tasks.new ≡ with_branch_of parent tasks.old }
{
    if let Some(parent) = parent {
        add_branch(tasks, parent);
    }
}

impl Tasks {
    /// A table without tasks, with room for so many.
    pub fn new(alloc: Global, most: u32) -> Result<Tasks, NoMemory>
        ensures { IfOk result (λ tasks. tasks ≡ empty most) }
    {
        let procs = Vec::with_capacity(alloc, most as usize)?;
        let links = vec![in alloc; 0; most as usize]?;
        let tasks = no_tasks(alloc, most)?;
        let free = all_slots(alloc, most)?;
        Ok(Tasks {
            procs,
            links,
            tasks,
            free,
            made: 0,
            ready: 0,
            recent: 0,
        })
    }

    /// Starts a task in a proc that lives, and gives its slot, which no live task has.
    pub fn start_task(&mut self, proc: u32, hart: Hart) -> Result<u32, StartFault>
        requires { 0 < live_of self.old proc }
        ensures started { IfOk result (λ slot. StartsTask proc hart slot self.old self.new) }
        ensures full { (result ≡ Err StartFault.Tasks) ↔ (live_tasks self.old.procs ≡ length self.old.tasks) }
        ensures same { OnErr result (self.new ≡ self.old) }
    {
        let Some(slot) = self.free.pop() else {
            return Err(StartFault::Tasks);
        };
        let at = place(&self.procs, proc);
        self.tasks[slot as usize] = Some(Task {
            proc,
            branches: 0,
            hart: Some(hart),
        });
        let own = &mut self.procs[at];
        own.live += 1;
        own.ready.push(&mut self.links, slot);
        self.ready += 1;
        Ok(slot)
    }

    /// Starts a proc with one task, and gives its number. A parent is the task that waits for it in a par.
    pub fn start_proc(
        &mut self,
        parent: Option<u32>,
        hart: Hart,
        privates: Privates,
    ) -> Result<u32, StartFault>
        requires few { length self.old.procs + 1 < 2 ^ 32 }
        requires parent { IfSome parent (λ u. first_ready self.old.procs (home_of self.old u) ≡ Some u) }
        requires here { IfSome parent (λ u. is_away self.old (home_of self.old u) ≡ false) }
        ensures number { IfOk result (λ number. number ≡ length self.old.procs) }
        ensures started { IfOk result (λ number. StartsProc parent hart privates number self.old self.new) }
        ensures full { (result ≡ Err StartFault.Tasks) ↔ (live_tasks self.old.procs ≡ length self.old.tasks) }
        ensures same { OnErr result (self.new ≡ self.old) }
    {
        let Some(slot) = self.free.pop() else {
            return Err(StartFault::Tasks);
        };
        let number = self.made;
        join_parent(&mut self.tasks, parent);
        self.tasks[slot as usize] = Some(Task {
            proc: number,
            branches: 0,
            hart: Some(hart),
        });
        let proc = Proc {
            number,
            ready: Queue::of(slot),
            live: 1,
            parent,
            privates: Some(privates),
        };
        match self.procs.push(proc) {
            Ok(()) => {}
            Err(_) => unreachable!(),
        }
        self.made += 1;
        self.ready += 1;
        Ok(number)
    }
}

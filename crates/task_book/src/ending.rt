//! Tasks end, and procs with them.

ghost use Rattle.std.specs.Prelude.{◌≡◌, ◌≢◌, ◌<◌, ◌≤◌, ◌+◌, ◌^◌, ℕ, IfSome, IsSome, Some, None, true, false, length, nat_eq, slice_get, slice_set, if◌then◌else◌};
ghost use Rattle.al_world.specs.Procs.{first_ready, has_branches, ends, loses_first, without_parent};
ghost use Rattle.task_book.specs.Table.{lives, home_of, is_away, live_of, parent_of, ready_of, IsBlocked};
ghost use Rattle.task_book.specs.Starting.{without_branch, without_branch_of};
ghost use Rattle.task_book.specs.Homes.{home_at, homes_of};

use crate::proc::{Proc, Task, home, place};
use crate::tasks::Tasks;

/// What ended with a task.
#[derive(Clone, Copy, Debug, Drop, PartialEq, Eq)]
pub struct Ended {
    /// Whether its proc ended.
    pub proc_ended: bool,
    /// The task that waited in a par for the last of its branches, and became ready.
    pub woke: Option<u32>,
}

/// Counts one proc less that a task waits for.
fn drop_branch(tasks: &mut [Option<Task>], slot: u32)
    requires lives { IsSome (home_at (homes_of tasks.old) slot) }
    requires some { (x : Task) → slice_get tasks.old slot ≡ Some (Some x) → 0 < x.branches }
    ensures { tasks.new ≡ without_branch slot tasks.old }
{
    match &mut tasks[slot as usize] {
        Some(task) => task.branches -= 1,
        None => unreachable!(),
    }
}

/// Counts one proc less that its parent waits for, if it has one.
fn leave_parent(tasks: &mut [Option<Task>], parent: Option<u32>)
    requires lives { IfSome parent (λ u. IsSome (home_at (homes_of tasks.old) u)) }
    requires some { IfSome parent (λ u. (x : Task) → slice_get tasks.old u ≡ Some (Some x) → 0 < x.branches) }
    ensures { tasks.new ≡ without_branch_of parent tasks.old }
{
    if let Some(parent) = parent {
        drop_branch(tasks, parent);
    }
}

impl Tasks {
    /// How many tasks of a task's proc live.
    fn company(&self, task: u32) -> u32
        requires { lives self.now task ≡ true }
        ensures live { result ≡ live_of self.now (home_of self.now task) }
        ensures some { 0 < result }
    {
        let number = home(&self.tasks, task);
        let at = place(&self.procs, number);
        self.procs[at].live
    }

    /// Ends the first task of a proc that has others.
    fn end_one(&mut self, task: u32)
        requires lives { lives self.old task ≡ true }
        requires first { first_ready self.old.procs (home_of self.old task) ≡ Some task }
        requires here { is_away self.old (home_of self.old task) ≡ false }
        requires alone { has_branches nat_eq (λ t. 0) task self.old.procs ≡ false }
        requires others { 1 < live_of self.old (home_of self.old task) }
        ensures { self.new ≡ record self.old { procs = loses_first (home_of self.old task) self.old.procs; tasks = slice_set self.old.tasks task None } }
    {
        let number = home(&self.tasks, task);
        let at = place(&self.procs, number);
        let own = &mut self.procs[at];
        own.ready.pop(&self.links);
        own.live -= 1;
        self.tasks[task as usize] = None;
        match self.free.push(task) {
            Ok(()) => {}
            Err(_) => unreachable!(),
        }
        self.ready -= 1;
    }

    /// Ends the only task of a proc, and the proc. It gives the task that waits for the proc.
    fn end_last(&mut self, task: u32) -> Option<u32>
        requires lives { lives self.old task ≡ true }
        requires first { first_ready self.old.procs (home_of self.old task) ≡ Some task }
        requires here { is_away self.old (home_of self.old task) ≡ false }
        requires alone { has_branches nat_eq (λ t. 0) task self.old.procs ≡ false }
        requires last { live_of self.old (home_of self.old task) ≡ 1 }
        ensures parent { result ≡ parent_of self.old (home_of self.old task) }
        ensures table { self.new ≡ record { procs = without_parent (home_of self.old task) (loses_first (home_of self.old task) self.old.procs); tasks = slice_set self.old.tasks task None; privates = slice_set self.old.privates (home_of self.old task) None } }
    {
        let number = home(&self.tasks, task);
        let at = place(&self.procs, number);
        let proc = self.procs.remove(at);
        leave_parent(&mut self.tasks, proc.parent);
        self.tasks[task as usize] = None;
        match self.free.push(task) {
            Ok(()) => {}
            Err(_) => unreachable!(),
        }
        self.ready -= 1;
        proc.parent
    }

    /// Ends a task, which is the first of its proc's ready list. The proc is not away, and the task waits for none. Where
    /// the proc ends and has a parent, that task has blocked.
    pub fn end(&mut self, task: u32) -> Ended
        requires lives { lives self.old task ≡ true }
        requires first { first_ready self.old.procs (home_of self.old task) ≡ Some task }
        requires here { is_away self.old (home_of self.old task) ≡ false }
        requires alone { has_branches nat_eq (λ t. 0) task self.old.procs ≡ false }
        requires parent { live_of self.old (home_of self.old task) ≡ 1 → IfSome (parent_of self.old (home_of self.old task)) (IsBlocked self.old) }
        ensures ended { ends nat_eq (home_of self.old) self.old.procs (home_of self.old task) ≡ record { procs = self.new.procs; proc_ended = result.proc_ended; woke = result.woke } }
        ensures tasks { self.new.tasks ≡ slice_set self.old.tasks task None }
        ensures privates { self.new.privates ≡ (if result.proc_ended then slice_set self.old.privates (home_of self.old task) None else self.old.privates) }
    {
        if self.company(task) > 1 {
            self.end_one(task);
            return Ended {
                proc_ended: false,
                woke: None,
            };
        }
        let mut woke = None;
        if let Some(parent) = self.end_last(task) {
            if !self.waits(parent) {
                self.wake(parent);
                woke = Some(parent);
            }
        }
        Ended {
            proc_ended: true,
            woke,
        }
    }
}

//! The table of tasks.

ghost use Rattle.std.specs.Prelude.{ℕ, ◌≡◌, ◌<◌, ◌≤◌, ◌+◌, ◌-◌, ◌^◌, ◌↔◌, IsTrue, IfOk, IfSome, IfNone, IsSome, IsOk, OnErr, [], ◌∷◌, ◌++◌, true, false, length, nat_lt, nat_eq, replicate, slice_set, slice_get};
ghost use Rattle.std.specs.List.{list_any};
ghost use Rattle.al_world.specs.Procs.{first_ready, has_ready, live_tasks, leaves_ready, joins_ready, starts_in_proc, has_branches, new_proc};
ghost use Rattle.task_book.specs.Table.{LivesIn, lives, home_of, is_away, can_run, live_of, ready_of};
ghost use Rattle.task_book.specs.Sound.{IsSound};
ghost use Rattle.task_book.specs.Queues.{has};

use crate::proc::{Proc, Task, find, first_that_runs, home, next_that_runs, place};
use al_base::NoMemory;
use rv_exec::{Hart, Privates};
use std::alloc::Global;
use std::marker::Model;

/// Too many tasks live to start one more.
#[derive(Clone, Copy, Debug, PartialEq, Eq)]
pub enum StartFault {
    Tasks,
}

/// The tasks that live, and the procs that they are in.
#[derive(Debug, Drop)]
pub struct Tasks {
    /// The procs that have live tasks, by rising numbers.
    pub(crate) procs: Vec<Proc>,
    /// What is behind each slot in its queue.
    pub(crate) links: Vec<u32>,
    /// The task of each slot.
    pub(crate) tasks: Vec<Option<Task>>,
    /// The slots without a task.
    pub(crate) free: Vec<u32>,
    /// How many procs were made.
    pub(crate) made: u32,
    /// How many tasks are ready.
    pub(crate) ready: u32,
    /// The proc that was lent last.
    pub(crate) recent: u32,
}

impl Model for Tasks {
    ghost use Rattle.task_book.specs.Table.{Table};

    ghost Value = { Table };

    ghost use Rattle.task_book.specs.Kept.{table_of, HasRoom};

    ghost view = { table_of };

    ghost invariant = { HasRoom };
}

impl Tasks {
    /// How many tasks live.
    pub fn live(&self) -> u32
        ensures { result ≡ live_tasks self.now.procs }
    {
        (self.tasks.len() - self.free.len()) as u32
    }

    /// Whether any proc has a ready task.
    pub fn any_ready(&self) -> bool
        ensures { result ≡ list_any has_ready self.now.procs }
    {
        self.ready > 0
    }

    /// How many tasks can live at one time. Each table is sound.
    pub fn most(&self) -> u32
        ensures most { result ≡ length self.now.tasks }
        ensures sound { IsSound self.now }
    {
        self.tasks.len() as u32
    }

    /// Whether a proc lives, and its first ready task and its private globals are lent.
    pub fn is_away(&self, proc: u32) -> bool
        ensures { result ≡ is_away self.now proc }
    {
        match find(&self.procs, proc) {
            Some(at) => self.procs[at].privates.is_none(),
            None => false,
        }
    }

    /// Whether a proc lives that a task waits for in a par.
    pub fn waits(&self, task: u32) -> bool
        requires { lives self.now task ≡ true }
        ensures { result ≡ has_branches nat_eq (λ t. 0) task self.now.procs }
    {
        match &self.tasks[task as usize] {
            Some(task) => task.branches > 0,
            None => unreachable!(),
        }
    }

    /// The first ready task of a proc. None exactly where it has none. The task lives in the proc, and its hart is here
    /// unless the proc is away.
    pub fn first(&self, proc: u32) -> Option<u32>
        ensures ready { result ≡ first_ready self.now.procs proc }
        ensures home { IfSome result (λ task. LivesIn self.now proc task) }
    {
        let at = find(&self.procs, proc)?;
        self.procs[at].ready.first()
    }

    /// A proc that is not away and has a ready task, by turns: the first one from the proc after the one that was lent last,
    /// going round. None exactly where there is no such proc.
    pub fn ready_proc(&self) -> Option<u32>
        ensures some { IfSome result (λ proc. can_run self.now proc ≡ true) }
        ensures none { IfNone result ((proc : ℕ) → can_run self.now proc ≡ false) }
    {
        match next_that_runs(&self.procs, self.recent) {
            Some(number) => Some(number),
            None => first_that_runs(&self.procs),
        }
    }

    /// Takes a task out of its proc's ready list. It is the first there, and its proc is not away.
    pub fn block(&mut self, task: u32)
        requires first { first_ready self.old.procs (home_of self.old task) ≡ Some task }
        requires lives { lives self.old task ≡ true }
        requires here { is_away self.old (home_of self.old task) ≡ false }
        ensures { self.new ≡ record self.old { procs = leaves_ready (home_of self.old task) self.old.procs } }
    {
        let number = home(&self.tasks, task);
        let at = place(&self.procs, number);
        self.procs[at].ready.pop(&self.links);
        self.ready -= 1;
    }

    /// Puts a task that blocked at the end of its proc's ready list.
    pub fn wake(&mut self, task: u32)
        requires lives { lives self.old task ≡ true }
        requires blocked { has task (ready_of self.old (home_of self.old task)) ≡ false }
        requires alone { has_branches nat_eq (λ t. 0) task self.old.procs ≡ false }
        ensures { self.new ≡ record self.old { procs = joins_ready (home_of self.old task) task self.old.procs } }
    {
        let number = home(&self.tasks, task);
        let at = place(&self.procs, number);
        self.procs[at].ready.push(&mut self.links, task);
        self.ready += 1;
    }
}

//! Harts and private globals go out and come home.

ghost use Rattle.std.specs.Prelude.{◌≡◌, ◌≢◌, ◌+◌, ◌<◌, IsSome, IsSomeAnd, IfSome, Some, None, true, false, slice_get, slice_set, length, map, is_some};
ghost use Rattle.std.specs.Option.{option_map};
ghost use Rattle.rv_exec.specs.Shown.{CanTake};
ghost use Rattle.task_book.specs.Table.{hart_of, is_away, can_run};
ghost use Rattle.task_book.specs.Lending.{lent, without, with_held, hart_in, with_hart, TakesAnswer};
ghost use Rattle.task_book.specs.Homes.{home_at, homes_of};

use crate::proc::{Proc, Task, place};
use crate::tasks::Tasks;
use rv_exec::{Hart, Held, Privates, resume};

/// Takes the hart of a task, which is there.
fn take_hart(tasks: &mut [Option<Task>], slot: u32) -> Hart
    requires { IsSome (hart_in tasks.old slot) }
    ensures hart { hart_in tasks.old slot ≡ Some result }
    ensures tasks { tasks.new ≡ with_hart slot None tasks.old }
{
    match &mut tasks[slot as usize] {
        Some(task) => match task.hart.take() {
            Some(hart) => hart,
            None => unreachable!(),
        },
        None => unreachable!(),
    }
}

/// Gives a task a hart.
fn put_hart(tasks: &mut [Option<Task>], slot: u32, hart: Hart)
    requires { IsSome (home_at (homes_of tasks.old) slot) }
    ensures { tasks.new ≡ with_hart slot (Some hart) tasks.old }
{
    match &mut tasks[slot as usize] {
        Some(task) => task.hart = Some(hart),
        None => unreachable!(),
    }
}

impl Tasks {
    /// Hands out the hart of a proc's first ready task, and the proc's private globals. The proc is away then.
    pub fn lend(&mut self, proc: u32) -> Held
        requires { can_run self.old proc ≡ true }
        ensures held { lent self.old proc ≡ Some result }
        ensures away { self.new ≡ without proc self.old }
    {
        let at = place(&self.procs, proc);
        let slot = self.procs[at].ready.head;
        let hart = take_hart(&mut self.tasks, slot);
        self.recent = proc;
        match self.procs[at].privates.take() {
            Some(privates) => Held {
                proc,
                hart,
                privates,
            },
            None => unreachable!(),
        }
    }

    /// Puts back what was lent.
    pub fn home(&mut self, held: Held)
        requires { is_away self.old held.proc ≡ true }
        ensures { self.new ≡ with_held held self.old }
    {
        let Held {
            proc,
            hart,
            privates,
        } = held;
        let at = place(&self.procs, proc);
        let slot = self.procs[at].ready.head;
        put_hart(&mut self.tasks, slot, hart);
        self.procs[at].privates = Some(privates);
    }

    /// Goes on with a task, whose hart is here, by the words of an answer.
    pub fn answer(&mut self, task: u32, words: &[u32])
        requires { IsSomeAnd (hart_of self.old task) (λ hart. CanTake hart words.now) }
        ensures { TakesAnswer self.old task words.now self.new }
    {
        let hart = take_hart(&mut self.tasks, task);
        put_hart(&mut self.tasks, task, resume(hart, words));
    }
}

//! Procs and tasks, as a table keeps them.

ghost use Rattle.std.specs.Prelude.{◌≡◌, ◌<◌, IfSome, IfNone, IsSome, IsSomeAnd, All, None, Some, true, false, length, slice_get};
ghost use Rattle.task_book.specs.Homes.{home_at, homes_of};
ghost use Rattle.task_book.specs.Procs.{proc_at, count_before, runs, IsRising};

use crate::queue::Queue;
use rv_exec::{Hart, Privates};

/// A proc that has live tasks.
#[derive(Debug, Drop)]
pub struct Proc {
    pub number: u32,
    pub ready: Queue,
    /// How many of its tasks live.
    pub live: u32,
    /// The task that waits for it in a par.
    pub parent: Option<u32>,
    /// None while the proc is away.
    pub privates: Option<Privates>,
}

impl Proc {
    /// Whether the proc is not away and has a ready task.
    pub fn can_run(&self) -> bool
        ensures { result ≡ runs self.now }
    {
        self.ready.len > 0 && self.privates.is_some()
    }
}

/// A task that lives.
#[derive(Debug, Drop)]
pub struct Task {
    pub proc: u32,
    /// How many procs have this task as their parent.
    pub branches: u32,
    /// None while its proc is away and this is the first of its ready tasks.
    pub hart: Option<Hart>,
}

// How many procs come before a number: the index of the first that does not.
fn first_from(procs: &[Proc], number: u32) -> usize
    requires { IsRising 0 procs.now }
    ensures { result ≡ count_before number procs.now }
{
    procs.partition_point(|proc| proc.number < number)
}

/// The number of the first proc that can run.
pub fn first_that_runs(procs: &[Proc]) -> Option<u32>
    requires { IsRising 0 procs.now }
    ensures some { IfSome result (λ number. IsSomeAnd (proc_at number procs.now) (λ r. runs r ≡ true)) }
    ensures none { IfNone result (All (λ r. runs r ≡ false) procs.now) }
{
    for proc in procs {
        if proc.can_run() {
            return Some(proc.number);
        }
    }
    None
}

/// The number of the first proc past one that can run.
pub fn next_that_runs(procs: &[Proc], past: u32) -> Option<u32>
    requires { IsRising 0 procs.now }
    ensures { IfSome result (λ number. IsSomeAnd (proc_at number procs.now) (λ r. runs r ≡ true)) }
{
    for proc in procs {
        if proc.number > past && proc.can_run() {
            return Some(proc.number);
        }
    }
    None
}

/// Where the proc of a number stands.
pub fn find(procs: &[Proc], number: u32) -> Option<usize>
    requires { IsRising 0 procs.now }
    ensures there { IfSome result (λ i. slice_get procs.now i ≡ proc_at number procs.now) }
    ensures within { IfSome result (λ i. i < length procs.now) }
    ensures found { IfSome result (λ i. IsSome (proc_at number procs.now)) }
    ensures none { IfNone result (proc_at number procs.now ≡ None) }
{
    let at = first_from(procs, number);
    match procs.get(at) {
        Some(proc) => {
            if proc.number == number {
                Some(at)
            } else {
                None
            }
        }
        None => None,
    }
}

/// Where the proc of a number stands, which is there.
pub fn place(procs: &[Proc], number: u32) -> usize
    requires rising { IsRising 0 procs.now }
    requires known { IsSome (proc_at number procs.now) }
    ensures there { slice_get procs.now result ≡ proc_at number procs.now }
    ensures within { result < length procs.now }
{
    match find(procs, number) {
        Some(at) => at,
        None => unreachable!(),
    }
}

/// The number of the proc of a task that lives.
pub fn home(tasks: &[Option<Task>], slot: u32) -> u32
    requires { IsSome (home_at (homes_of tasks.now) slot) }
    ensures { home_at (homes_of tasks.now) slot ≡ Some result }
{
    match tasks.get(slot as usize) {
        Some(Some(task)) => task.proc,
        _ => unreachable!(),
    }
}

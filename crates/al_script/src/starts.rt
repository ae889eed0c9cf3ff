// Tasks that start and end.

ghost use Rattle.std.specs.Prelude.{◌≡◌, ◌++◌, ◌+◌, ◌<◌, ◌^◌, length, map, IfOk, OnOk};
ghost use Rattle.al_event.specs.declared.act.Act.TheVariants.{Proc, Task, Par, End};
ghost use Rattle.al_world.specs.Procs.{leaves_ready, live_tasks};
ghost use Rattle.al_world.specs.Actions.{acts, begins_from, procs_from, counts_from, starts_procs, starts_task, next_task, join_told, first_task};
ghost use Rattle.al_script.specs.Worlds.{shared_of, effect_of, message_of, counts_of};

use crate::counts::{count_in, with_count};
use crate::effects::trapped;
use crate::tells::{Effect, Message, Told};
use crate::world::{Made, State};
use al_base::{NoMemory, Trap};
use al_event::{Start, Starts};
use al_items::Items;
use al_script_book::{
    Ended, ProcState, TaskName, copy_start, ends, is_full, leaves_ready, list_of_one, new_proc,
    starts_in_proc,
};
use std::alloc::Global;

/// The first task of a proc.
fn first_task(proc: u32) -> TaskName
    ensures { result ≡ first_task proc }
{
    TaskName { proc, number: 0 }
}

/// Adds what the first tasks of new procs are told, numbered from `proc` on.
fn add_begins(
    alloc: Global,
    told: &mut Items<Message>,
    proc: u32,
    starts: &[Start],
) -> Result<(), NoMemory>
    requires { proc + length starts.now < 2 ^ 32 }
    ensures { OnOk result (map message_of told.new ≡ map message_of told.old ++ begins_from proc starts.now) }
{
    match starts {
        [] => Ok(()),
        [start, rest @ ..] => {
            let start = copy_start(alloc, start)?;
            told.push(Message {
                to: first_task(proc),
                told: Told::Begins(start),
            })?;
            add_begins(alloc, told, proc + 1, rest)
        }
    }
}

/// Adds new procs, numbered from `proc` on.
fn add_procs(
    alloc: Global,
    procs: &mut Items<ProcState>,
    parent: Option<TaskName>,
    proc: u32,
    starts: &[Start],
) -> Result<(), NoMemory>
    requires { proc + length starts.now < 2 ^ 32 }
    ensures { OnOk result (procs.new ≡ procs.old ++ procs_from parent proc starts.now) }
{
    match starts {
        [] => Ok(()),
        [_, rest @ ..] => {
            procs.push(new_proc(alloc, parent, first_task(proc))?)?;
            add_procs(alloc, procs, parent, proc + 1, rest)
        }
    }
}

/// One task was started in each of these procs.
fn counts_from(proc: u32, starts: &[Start], started: Items<u32>) -> Result<Items<u32>, NoMemory>
    requires { proc + length starts.now < 2 ^ 32 }
    ensures { IfOk result (λ after. counts_of after ≡ counts_from proc starts.now (counts_of started)) }
{
    match starts {
        [] => Ok(started),
        [_, rest @ ..] => {
            let started = with_count(started, proc, 1)?;
            counts_from(proc + 1, rest, started)
        }
    }
}

/// A new proc for each start, with the next numbers in their order.
fn starts_procs(
    alloc: Global,
    made: &Made,
    parent: Option<TaskName>,
    starts: &[Start],
    state: State,
) -> Result<State, NoMemory>
    requires { length state.procs + length starts.now < 2 ^ 32 }
    ensures { IfOk result (λ after. shared_of made.now after ≡ starts_procs parent starts.now (shared_of made.now state)) }
{
    let State {
        store,
        book,
        procs,
        started,
        output,
        went,
        over,
    } = state;
    let first = procs.len() as u32;
    let started = counts_from(first, starts, started)?;
    let mut procs = procs;
    add_procs(alloc, &mut procs, parent, first, starts)?;
    Ok(State {
        store,
        book,
        procs,
        started,
        output,
        went,
        over,
    })
}

/// Starts a proc with one task.
pub fn starts_proc(
    alloc: Global,
    made: &Made,
    state: State,
    task: TaskName,
    start: Start,
) -> Result<Effect, NoMemory>
    requires { length state.procs + 1 < 2 ^ 32 }
    ensures { IfOk result (λ e. effect_of made.now e ≡ acts (shared_of made.now state) task (Proc start)) }
{
    if is_full(state.procs.as_slice(), 1) {
        return Ok(trapped(alloc, made, state, task, Trap::Tasks));
    }
    let first = state.procs.len() as u32;
    let starts = list_of_one(alloc, start)?;
    let nothing = Told::Answered(Items::new(alloc));
    let mut told = list_of_one(
        alloc,
        Message {
            to: task,
            told: nothing,
        },
    )?;
    add_begins(alloc, &mut told, first, starts.as_slice())?;
    let state = starts_procs(alloc, made, None, starts.as_slice(), state)?;
    Ok(Effect { state, told })
}

/// The state with one task more in a proc, at the end of its ready list.
fn starts_task(alloc: Global, made: &Made, next: TaskName, state: State) -> Result<State, NoMemory>
    requires live { live_tasks state.procs < 1024 }
    requires next { next ≡ next_task (shared_of made.now state) next.proc }
    requires fits { next.number + 1 < 2 ^ 32 }
    ensures { IfOk result (λ after. shared_of made.now after ≡ starts_task next.proc (shared_of made.now state)) }
{
    let State {
        store,
        book,
        procs,
        started,
        output,
        went,
        over,
    } = state;
    Ok(State {
        store,
        book,
        procs: starts_in_proc(alloc, next.proc as usize, next, procs)?,
        started: with_count(started, next.proc, next.number + 1)?,
        output,
        went,
        over,
    })
}

/// Starts a task in the same proc.
pub fn starts_one_task(
    alloc: Global,
    made: &Made,
    state: State,
    task: TaskName,
    start: Start,
) -> Result<Effect, NoMemory>
    requires { counts_of state.started task.proc + 1 < 2 ^ 32 }
    ensures { IfOk result (λ e. effect_of made.now e ≡ acts (shared_of made.now state) task (Task start)) }
{
    if is_full(state.procs.as_slice(), 1) {
        return Ok(trapped(alloc, made, state, task, Trap::Tasks));
    }
    let next = TaskName {
        proc: task.proc,
        number: count_in(state.started.as_slice(), task.proc),
    };
    let nothing = Told::Answered(Items::new(alloc));
    let begins = Told::Begins(start);
    let mut told = list_of_one(
        alloc,
        Message {
            to: task,
            told: nothing,
        },
    )?;
    told.push(Message {
        to: next,
        told: begins,
    })?;
    let state = starts_task(alloc, made, next, state)?;
    Ok(Effect { state, told })
}

/// The state in which the first task of a proc has left its ready list.
fn leaves(alloc: Global, made: &Made, proc: u32, state: State) -> Result<State, NoMemory>
    ensures value { IfOk result (λ after. shared_of made.now after ≡ record (shared_of made.now state) { procs = leaves_ready proc state.procs }) }
    ensures count { IfOk result (λ after. length after.procs ≡ length state.procs) }
{
    let State {
        store,
        book,
        procs,
        started,
        output,
        went,
        over,
    } = state;
    Ok(State {
        store,
        book,
        procs: leaves_ready(alloc, proc as usize, procs)?,
        started,
        output,
        went,
        over,
    })
}

/// Starts a proc for each branch, and has the task wait for them.
pub fn starts_par(
    alloc: Global,
    made: &Made,
    state: State,
    task: TaskName,
    starts: &[Start],
) -> Result<Effect, NoMemory>
    requires { length state.procs + 1024 < 2 ^ 32 }
    ensures { IfOk result (λ e. effect_of made.now e ≡ acts (shared_of made.now state) task (Par starts.now)) }
{
    if is_full(state.procs.as_slice(), starts.len()) {
        return Ok(trapped(alloc, made, state, task, Trap::Tasks));
    }
    let first = state.procs.len() as u32;
    let mut told = Items::new(alloc);
    add_begins(alloc, &mut told, first, starts)?;
    let state = leaves(alloc, made, task.proc, state)?;
    let state = starts_procs(alloc, made, Some(task), starts, state)?;
    Ok(Effect { state, told })
}

/// What the task that waited in a par is told.
fn join_told(alloc: Global, woke: Option<TaskName>) -> Result<Items<Message>, NoMemory>
    ensures { IfOk result (λ told. map message_of told ≡ join_told woke) }
{
    match woke {
        None => Ok(Items::new(alloc)),
        Some(task) => {
            let told = Told::Answered(Items::new(alloc));
            list_of_one(alloc, Message { to: task, told })
        }
    }
}

/// The task ends.
pub fn ends_task(
    alloc: Global,
    made: &Made,
    state: State,
    task: TaskName,
) -> Result<Effect, NoMemory>
    ensures { IfOk result (λ e. effect_of made.now e ≡ acts (shared_of made.now state) task End) }
{
    let State {
        store,
        book,
        procs,
        started,
        output,
        went,
        over,
    } = state;
    let Ended { procs, woke, .. } = ends(alloc, procs, task.proc as usize)?;
    let state = State {
        store,
        book,
        procs,
        started,
        output,
        went,
        over,
    };
    let told = join_told(alloc, woke)?;
    Ok(Effect { state, told })
}

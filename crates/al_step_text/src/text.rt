//! The whole text.
ghost use Rattle.std.specs.Prelude.{◌≡◌, ◌++◌, ◌<◌, ◌^◌, codes, decimal, length, OnOk};
ghost use Rattle.std.specs.Option.{option_copied};
ghost use Rattle.std.specs.List.{flat_map, range_with_len};
ghost use Rattle.al_script.specs.Worlds.{shared_of};
ghost use Rattle.al_tasks.specs.Tables.{tasks_of, task_held};
ghost use Rattle.al_step_text.specs.StepText as spec;

use crate::block::put_blocks;
use crate::channel::put_channels;
use crate::frame::put_frames;
use crate::state::{TaskState, put_over, put_state, state_in};
use al_base::{NoMemory, Over};
use al_event::Bytes;
use al_script::{Made, State, count_in};
use al_script_book::TaskName;
use al_tasks::{Held, Tasks, task_in};
use al_typed::Program;
use al_value_text::put_decimal;
use std::alloc::Global;

fn put_held(
    alloc: Global,
    out: &mut Bytes,
    p: &Program,
    held: Option<&Held>,
) -> Result<(), NoMemory>
    ensures { OnOk result (out.new ≡ out.old ++ spec.held_lines p.now (task_held (option_copied held.entry))) }
{
    match held {
        None => Ok(()),
        Some(held) => match held {
            Held::Goes(control) => put_frames(alloc, out, p, &control.frames),
            Held::Waits(_, control) => put_frames(alloc, out, p, &control.frames),
        },
    }
}

fn put_task_line(out: &mut Bytes, task: TaskName, state: TaskState) -> Result<(), NoMemory>
    ensures { OnOk result (out.new ≡ out.old ++ spec.task_line task state) }
{
    out.extend_from_slice(b"task ")?;
    put_decimal(out, u64::from(task.proc))?;
    out.extend_from_slice(b" ")?;
    put_decimal(out, u64::from(task.number))?;
    out.extend_from_slice(b" ")?;
    put_state(out, state)?;
    out.extend_from_slice(b"\n")
}

/// Puts the lines of a task, none where it has ended.
fn put_task(
    alloc: Global,
    out: &mut Bytes,
    p: &Program,
    state: &State,
    tasks: &Tasks,
    task: TaskName,
) -> Result<(), NoMemory>
    ensures { (made : Made) → OnOk result (out.new ≡ out.old ++ spec.task_lines p.now (shared_of made state.now) (tasks_of tasks.now) task) }
{
    match state_in(state.procs.as_slice(), state.book.waiting.as_slice(), task) {
        None => Ok(()),
        Some(what) => {
            put_task_line(out, task, what)?;
            put_held(alloc, out, p, task_in(tasks, task))
        }
    }
}

/// Puts the lines of the tasks of a proc, by their numbers.
#[tactic(auto, using(crate::proofs::RangesAre::proc_is))]
fn put_proc(
    alloc: Global,
    out: &mut Bytes,
    p: &Program,
    state: &State,
    tasks: &Tasks,
    proc: u32,
) -> Result<(), NoMemory>
    ensures { (made : Made) → OnOk result (out.new ≡ out.old ++ spec.all_of_proc p.now (shared_of made state.now) (tasks_of tasks.now) proc) }
{
    for number in 0..count_in(state.started.as_slice(), proc) {
        put_task(alloc, out, p, state, tasks, TaskName { proc, number })?;
    }
    Ok(())
}

/// Puts the lines of all tasks, proc by proc.
#[tactic(auto, using(crate::proofs::RangesAre::procs_are))]
fn put_procs(
    alloc: Global,
    out: &mut Bytes,
    p: &Program,
    state: &State,
    tasks: &Tasks,
) -> Result<(), NoMemory>
    requires { length state.now.procs < 2 ^ 32 }
    ensures { (made : Made) → OnOk result (out.new ≡ out.old ++ spec.procs_lines p.now (shared_of made state.now) (tasks_of tasks.now) (length state.now.procs)) }
{
    for proc in 0..state.procs.len() {
        put_proc(alloc, out, p, state, tasks, proc as u32)?;
    }
    Ok(())
}

fn put_head(out: &mut Bytes, entries: u64, over: Option<Over>) -> Result<(), NoMemory>
    ensures { OnOk result (out.new ≡ out.old ++ (codes "entries " ++ decimal entries ++ codes "\n" ++ spec.over_line over)) }
{
    out.extend_from_slice(b"entries ")?;
    put_decimal(out, entries)?;
    out.extend_from_slice(b"\n")?;
    put_over(out, over)
}

fn put_output(out: &mut Bytes, count: usize) -> Result<(), NoMemory>
    ensures { OnOk result (out.new ≡ out.old ++ (codes "output " ++ decimal count ++ codes "\n")) }
{
    out.extend_from_slice(b"output ")?;
    put_decimal(out, count as u64)?;
    out.extend_from_slice(b"\n")
}

/// Puts the text of a world after so many entries.
pub fn put_world(
    alloc: Global,
    out: &mut Bytes,
    p: &Program,
    state: &State,
    tasks: &Tasks,
    entries: u64,
) -> Result<(), NoMemory>
    requires { length state.now.procs < 2 ^ 32 }
    ensures { (made : Made) → OnOk result (out.new ≡ out.old ++ spec.text_of p.now (shared_of made state.now) (tasks_of tasks.now) entries) }
{
    put_head(out, entries, state.over)?;
    put_procs(alloc, out, p, state, tasks)?;
    put_channels(out, &state.book)?;
    put_blocks(alloc, out, &state.store)?;
    put_output(out, state.output.len())?;
    Ok(())
}

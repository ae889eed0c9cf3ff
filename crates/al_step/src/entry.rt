//! One entry of a schedule.
ghost use Rattle.std.specs.Prelude.{◌≡◌, ℕ, None, ◌++◌, [], ◌∷◌, ◌+◌, ◌<◌, ◌^◌, ◌↔◌, length, Some, IsTrue, IfOk, IfErr, option_map};
ghost use Rattle.al_event.specs.declared.act.Act.{Act as Action};
ghost use Rattle.al_world.specs.World.{Effect as Effects};
ghost use Rattle.al_world.specs.Actions.{performs};
ghost use Rattle.al_world.specs.Permitted.{picks};
ghost use Rattle.al_world.specs.Step.{counted, step_asked, step_held, task_of};
ghost use Rattle.al_typed.specs.Layout.{IsLaidOut};
ghost use Rattle.al_meaning.specs.Meaning.{source as kind};
ghost use Rattle.al_control.specs.Fits.{Explains};
ghost use Rattle.al_script.specs.Scripts.{IsSized};
ghost use Rattle.al_script.specs.Worlds.{counts_of, shared_of, effect_of, branches_in, Fits};
ghost use Rattle.al_tasks.specs.Tables.{held_of, tasks_of, privates_of};
ghost use Rattle.al_walk_calls.specs.Slots.{slots_in};
ghost use Rattle.al_walk.specs.Asks.{asked_of};
ghost use Rattle.al_typed.specs.declared.program.Program.{Program as Programs};
ghost use Rattle.al_step.specs.Sources.{IsSound, Stands, IsMade, IsSteppedBy, IsStepped, source_of, world_of, asked_by, HeldFits, ActFits, EffectFits, TaskFits, EntryFits};

use crate::acts::{copy_act, is_sized};
use crate::source::Source;
use crate::told::goes_on;
use al_base::NoMemory;
use al_control::{Copied, Unmade};
use al_event::{Act, Entry, Words};
use al_script::{Effect, Made, State, ended, has_room, made_after, performs, picks, task_of};
use al_script_book::TaskName;
use al_tasks::{Held, privates_in, put_privates, task_in};
use al_typed::Program;
use al_walk::{Asked, ask};
use std::alloc::Global;

/// What a task asks that goes on; none where it waits. The task is left as it is.
#[tactic(auto, using(crate::proofs::Worlds::goes_explain))]
fn held_asks<'p>(
    alloc: Global,
    slots: &[u64],
    p: &'p Program,
    held: &Held<'p>,
    privates: Words,
) -> Result<Option<Asked<'p>>, Unmade>
    requires laid_out { IsLaidOut p.now.aggregates }
    requires slots { slots.now ≡ slots_in p.now }
    ensures asked { IfOk result (λ a. option_map asked_of a ≡ asked_by p.now (held_of held.now) privates) }
    ensures why { IfErr result (λ e. Explains e (HeldFits p.now (held_of held.now) privates)) }
{
    match held {
        Held::Goes(control) => {
            let control = control.copied(alloc)?;
            let asked = ask(alloc, slots, p, control, privates)?;
            Ok(Some(asked))
        }
        Held::Waits(_, _) => Ok(None),
    }
}

/// What a task asks that goes on; none where it waits or was not started. The source is left as it is.
#[tactic(auto, using(crate::proofs::Worlds::asks_explain))]
fn asks<'p>(alloc: Global, source: &Source<'p>, task: TaskName) -> Result<Option<Asked<'p>>, Unmade>
    requires laid_out { IsLaidOut source.now.program.now.aggregates }
    requires slots { source.now.slots ≡ slots_in source.now.program.now }
    ensures asked { IfOk result (λ a. option_map asked_of a ≡ asked_by source.now.program.now (tasks_of source.now.tasks task) (privates_of source.now.privates task.proc)) }
    ensures why { IfErr result (λ e. Explains e (HeldFits source.now.program.now (tasks_of source.now.tasks task) (privates_of source.now.privates task.proc))) }
{
    match task_in(&source.tasks, task) {
        None => Ok(None),
        Some(held) => {
            let privates = privates_in(alloc, &source.privates, task.proc)?;
            let slots = source.slots.as_slice();
            let asked = held_asks(alloc, slots, source.program, held, privates)?;
            Ok(asked)
        }
    }
}

/// Whether an action has that pick.
#[tactic(auto, using(crate::proofs::Worlds::picks_are))]
fn is_in_range(
    alloc: Global,
    made: &Made,
    state: &State,
    act: &Act,
    pick: u16,
) -> Result<bool, NoMemory>
    requires { branches_in act.now < 2 ^ 32 }
    ensures { IfOk result (λ b. IsTrue b ↔ (pick < picks (shared_of made.now state.now) act.now)) }
{
    let count = picks(alloc, &state.book, act)?;
    Ok(usize::from(pick) < count)
}

/// What an action does under a pick that it has.
#[tactic(auto, using(crate::proofs::Worlds::in_range_is_done))]
fn performed(
    alloc: Global,
    made: &Made,
    state: State,
    task: TaskName,
    act: Act,
    pick: u16,
) -> Result<Effect, NoMemory>
    requires sized { IsSized act }
    requires fits { Fits (shared_of made.now state) task act }
    requires in_range { pick < picks (shared_of made.now state) act }
    ensures { IfOk result (λ e. performs (shared_of made.now state) task act pick ≡ Some (effect_of made.now e)) }
{
    let done = performs(alloc, made, state, task, act, pick)?;
    match done {
        Some(effect) => Ok(effect),
        None => unreachable!(),
    }
}

/// The world after an entry of a proc, whose action stands in this line: it is counted, and may be over now.
fn counts(
    alloc: Global,
    made: Made,
    state: State,
    proc: u32,
    line: u32,
) -> Result<(State, Made), NoMemory>
    requires all { made.entries + 1 < 2 ^ 32 }
    requires own { counts_of made.of_procs proc + 1 < 2 ^ 32 }
    ensures shared { IfOk result (λ o. shared_of o.1 o.0 ≡ counted proc line (shared_of made state)) }
    ensures procs { IfOk result (λ o. o.0.procs ≡ state.procs) }
{
    let made = made_after(alloc, made, proc, state.over, u64::from(line))?;
    let state = ended(state);
    Ok((state, made))
}

/// The source after an entry of a task that asked an action that fits, under a pick that it has.
fn makes<'p>(
    alloc: Global,
    source: Source<'p>,
    task: TaskName,
    entry: Entry,
    asked: Asked<'p>,
) -> Result<Source<'p>, Unmade>
    requires sound { IsSound source }
    requires sized { IsSized asked.act }
    requires fits { Fits (shared_of source.made source.state) task asked.act }
    requires in_range { entry.pick < picks (shared_of source.made source.state) asked.act }
    ensures made { IfOk result (IsMade source.entry entry (step_asked (kind source.entry.program.now) (world_of source.entry.program.now source.entry) task entry.pick (asked_of asked.entry))) }
    ensures why { IfErr result (λ e. Explains e ((f : Effects) → performs (shared_of source.entry.made source.entry.state) task asked.entry.act entry.pick ≡ Some f → EffectFits source.entry.program.now f)) }
{
    let Source {
        program,
        slots,
        state,
        made,
        mut tasks,
        mut privates,
        mut entries,
    } = source;
    let Asked {
        act,
        line,
        control,
        privates: own,
    } = asked;
    let proc = task.proc;
    let copy = copy_act(alloc, &act)?;
    let waits = Held::Waits(copy, control);
    let effect = performed(alloc, &made, state, task, act, entry.pick)?;
    let Effect { state, told } = effect;
    if state.procs.len() > 0xffff_ffff {
        return Err(Unmade::TooLarge);
    }
    goes_on(alloc, program, &mut tasks, task, waits, told.as_slice())?;
    put_privates(&mut privates, proc, own)?;
    entries.push(entry)?;
    let (state, made) = counts(alloc, made, state, proc, line)?;
    Ok(Source {
        program,
        slots,
        state,
        made,
        tasks,
        privates,
        entries,
    })
}

/// What an entry comes to.
#[derive(Drop)]
pub enum Stepped<'p> {
    /// The entry was made.
    Made(Source<'p>),
    /// The entry is not permitted: its proc has no ready task, or its pick is out of range. Nothing has changed.
    NotPermitted(Source<'p>),
    /// The world is over, so that no entry is permitted. Nothing has changed.
    Over(Source<'p>),
}

/// An entry of a task that asks this.
#[tactic(auto, using(crate::proofs::Entries::acts_explain))]
fn step_asked<'p>(
    alloc: Global,
    source: Source<'p>,
    task: TaskName,
    entry: Entry,
    asked: Asked<'p>,
) -> Result<Stepped<'p>, Unmade>
    requires sound { IsSound source }
    requires goes_on { source.state.over ≡ None }
    ensures stepped { IfOk result (IsSteppedBy source.entry entry (step_asked (kind source.entry.program.now) (world_of source.entry.program.now source.entry) task entry.pick (asked_of asked.entry))) }
    ensures why { IfErr result (λ e. Explains e (ActFits source.entry.program.now (shared_of source.entry.made source.entry.state) task entry.pick asked.entry.act)) }
{
    if !is_sized(&asked.act) {
        return Err(Unmade::TooLarge);
    }
    if !has_room(&source.made, &source.state, task, &asked.act) {
        return Err(Unmade::TooLarge);
    }
    let has_pick = is_in_range(alloc, &source.made, &source.state, &asked.act, entry.pick)?;
    if has_pick {
        let source = makes(alloc, source, task, entry, asked)?;
        Ok(Stepped::Made(source))
    } else {
        Ok(Stepped::NotPermitted(source))
    }
}

/// An entry of a task.
#[tactic(auto, using(crate::proofs::Entries::tasks_explain))]
fn step_task<'p>(
    alloc: Global,
    source: Source<'p>,
    task: TaskName,
    entry: Entry,
) -> Result<Stepped<'p>, Unmade>
    requires sound { IsSound source }
    requires goes_on { source.state.over ≡ None }
    ensures stepped { IfOk result (IsSteppedBy source.entry entry (step_held (kind source.entry.program.now) (world_of source.entry.program.now source.entry) task entry.pick (tasks_of source.entry.tasks task))) }
    ensures why { IfErr result (λ e. Explains e (TaskFits source.entry.program.now (world_of source.entry.program.now source.entry) task entry.pick)) }
{
    let asked = asks(alloc, &source, task)?;
    match asked {
        None => Ok(Stepped::NotPermitted(source)),
        Some(asked) => {
            let stepped = step_asked(alloc, source, task, entry, asked)?;
            Ok(stepped)
        }
    }
}

/// An entry of a source.
///
/// Where there is no memory for it, or where a number that it comes to has no room in a word, the source is gone.
#[tactic(auto, using(crate::proofs::Entries::entries_explain))]
pub fn step<'p>(alloc: Global, source: Source<'p>, entry: Entry) -> Result<Stepped<'p>, Unmade>
    requires { IsSound source }
    ensures stepped { IfOk result (IsStepped source.entry entry) }
    ensures stands { IfOk result (λ r. (p : Programs) (region : ℕ) → Stands p region source.entry → Stands p region (source_of r)) }
    ensures why { IfErr result (λ e. Explains e (EntryFits source.entry.program.now (world_of source.entry.program.now source.entry) entry)) }
{
    if source.state.over.is_some() {
        return Ok(Stepped::Over(source));
    }
    match task_of(&source.state, entry.proc) {
        None => Ok(Stepped::NotPermitted(source)),
        Some(task) => {
            let stepped = step_task(alloc, source, task, entry)?;
            Ok(stepped)
        }
    }
}

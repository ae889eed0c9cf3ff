// One entry of a schedule.

ghost use Rattle.std.specs.Prelude.{◌≡◌, ◌+◌, ◌<◌, ◌^◌, ◌↔◌, ◌==◌, List, [], IsTrue, IfOk, option_map};
ghost use Rattle.al_script.specs.declared.script.Instruction.{Instruction};
ghost use Rattle.std.specs.List.{list_any};
ghost use Rattle.al_world.specs.Procs.{has_ready, live_tasks};
ghost use Rattle.al_world.specs.World.{at_proc, at_task, told, Waits as Waiting, Goes as Going};
ghost use Rattle.al_world.specs.Step.{end_by_lists, over_or, line_of, counted, opening, opening_shared, task_of, step_held};
ghost use Rattle.al_region.specs.Region.{IsRegionSize};
ghost use Rattle.al_script.specs.Scripts.{scripts, act_of, line_in, IsSized};
ghost use Rattle.al_script.specs.Worlds.{counts_of, shared_of, tasks_of, effect_of, world_of, branches_in, Fits};
ghost use Rattle.al_script.specs.Stops.{IsNextOf, IsNext};

use crate::acts::performs;
use crate::asks::act_of;
use crate::counts::{count_in, with_count};
use crate::lists::before;
use crate::script::{Control, Function};
use crate::tells::{Effect, begun, held_in, tells};
use crate::world::{Change, Held, Made, State, World};
use al_base::{NoMemory, Over};
use al_event::{Act, Entry, Start};
use al_items::Items;
use al_script_book::{Book, ProcState, TaskName, first_ready, is_over_live, list_of_one, new_proc};
use al_store::Store;
use std::alloc::Global;

/// Whether a task of some proc is ready.
fn is_some_ready(procs: &[ProcState]) -> bool
    ensures { result ≡ list_any has_ready procs.now }
{
    procs.iter().any(|state| state.has_ready())
}

/// Whether no task lives.
fn is_none_live(procs: &[ProcState]) -> bool
    ensures { result ≡ (live_tasks procs.now == 0) }
{
    !is_over_live(procs, 0)
}

/// How a world is over that neither trapped nor was terminated.
fn end_by_lists(procs: &[ProcState]) -> Option<Over>
    ensures { result ≡ end_by_lists procs.now }
{
    if is_some_ready(procs) {
        None
    } else if is_none_live(procs) {
        Some(Over::Done)
    } else {
        Some(Over::Blocked)
    }
}

/// The state after an entry: it may be over now.
pub fn ended(state: State) -> State
    ensures { result ≡ record state { over = over_or state.over (end_by_lists state.procs) } }
{
    let mut state = state;
    if state.over.is_none() {
        state.over = end_by_lists(state.procs.as_slice());
    }
    state
}

/// The line of an action that trapped, else 0.
fn line_of(over: Option<Over>, line: u64) -> u64
    ensures { result ≡ line_of over line }
{
    match over {
        Some(Over::Trapped { .. }) => line,
        _ => 0,
    }
}

/// The entries with one more, of a proc, and the line of the action where it trapped.
pub fn made_after(
    alloc: Global,
    made: Made,
    proc: u32,
    over: Option<Over>,
    line: u64,
) -> Result<Made, NoMemory>
    requires all { made.entries + 1 < 2 ^ 32 }
    requires own { counts_of made.of_procs proc + 1 < 2 ^ 32 }
    ensures entries { IfOk result (λ m. m.entries ≡ made.entries + 1) }
    ensures of_procs { IfOk result (λ m. counts_of m.of_procs ≡ at_proc proc (counts_of made.of_procs proc + 1) (counts_of made.of_procs)) }
    ensures line { IfOk result (λ m. m.line ≡ line_of over line) }
{
    let Made {
        entries,
        of_procs,
        ..
    } = made;
    let own = count_in(of_procs.as_slice(), proc);
    Ok(Made {
        entries: entries + 1,
        of_procs: with_count(of_procs, proc, own + 1)?,
        line: line_of(over, line),
    })
}

/// The world after an entry of a task that asked its action and had this effect.
fn after(
    alloc: Global,
    script: &[Function],
    made: Made,
    tasks: Items<Change>,
    task: TaskName,
    control: Control,
    effect: Effect,
) -> Result<World, NoMemory>
    requires all { made.entries + 1 < 2 ^ 32 }
    requires own { counts_of made.of_procs task.proc + 1 < 2 ^ 32 }
    ensures shared { IfOk result (λ v. shared_of v.made v.state ≡ counted task.proc (line_in control) (shared_of made effect.state)) }
    ensures tasks { IfOk result (λ v. tasks_of script.now v.tasks ≡ told (scripts script.now) (effect_of made effect).told (at_task task (Waiting (act_of script.now control) control) (tasks_of script.now tasks))) }
{
    let Effect { state, told } = effect;
    let line = u64::from(control.code) + 1;
    let change = Change {
        task,
        held: Held::Waits(control),
    };
    let tasks = before(alloc, change, tasks)?;
    let tasks = tells(alloc, script, tasks, told.as_slice())?;
    let made = made_after(alloc, made, task.proc, state.over, line)?;
    Ok(World {
        state: ended(state),
        made,
        tasks,
    })
}

/// How many branches a talk has.
fn branches_in(act: &Act) -> usize
    ensures { result ≡ branches_in act.now }
{
    match act {
        Act::Talk { branches } => branches.len(),
        _ => 0,
    }
}

/// Whether an entry brings no number past 32 bits.
pub fn has_room(made: &Made, state: &State, task: TaskName, act: &Act) -> bool
    ensures { IsTrue result ↔ Fits (shared_of made.now state.now) task act.now }
{
    let most = u32::MAX;
    made.entries < most
        && count_in(made.of_procs.as_slice(), task.proc) < most
        && count_in(state.started.as_slice(), task.proc) < most
        && state.procs.len() < 0xffff_fc00
        && state.book.channels.len() < 0xffff_ffff
        && branches_in(act) < 0x1_0000_0000
}

/// What an entry comes to.
#[derive(Drop)]
pub enum Next {
    To(World),
    Refused,
    TooLarge,
}

/// The world after an entry of a task that goes on and asks an action that fits.
fn step_asked(
    alloc: Global,
    script: &[Function],
    world: World,
    task: TaskName,
    pick: u16,
    control: Control,
    act: Act,
) -> Result<Option<World>, NoMemory>
    requires act { act ≡ act_of script.now control }
    requires sized { IsSized act }
    requires fits { Fits (shared_of world.made world.state) task act }
    ensures { IfOk result (λ v. option_map (world_of script.now) v ≡ step_held (scripts script.now) (world_of script.now world) task pick (Going control)) }
{
    let World { state, made, tasks } = world;
    let Some(effect) = performs(alloc, &made, state, task, act, pick)? else {
        return Ok(None);
    };
    let world = after(alloc, script, made, tasks, task, control, effect)?;
    Ok(Some(world))
}

/// An entry of a task that goes on.
fn step_goes(
    alloc: Global,
    script: &[Function],
    world: World,
    task: TaskName,
    pick: u16,
    control: Control,
) -> Result<Next, NoMemory>
    requires { tasks_of script.now world.tasks task ≡ Going control }
    ensures { IfOk result (λ next. IsNextOf script.now (world_of script.now world) task pick next) }
{
    let act = act_of(alloc, script, &control)?;
    if !has_room(&world.made, &world.state, task, &act) {
        return Ok(Next::TooLarge);
    }
    match step_asked(alloc, script, world, task, pick, control, act)? {
        Some(world) => Ok(Next::To(world)),
        None => Ok(Next::Refused),
    }
}

/// An entry of a task.
fn step_task(
    alloc: Global,
    script: &[Function],
    world: World,
    task: TaskName,
    pick: u16,
) -> Result<Next, NoMemory>
    ensures { IfOk result (λ next. IsNextOf script.now (world_of script.now world) task pick next) }
{
    match held_in(alloc, world.tasks.as_slice(), task)? {
        Held::Goes(control) => step_goes(alloc, script, world, task, pick, control),
        Held::Waits(_) => Ok(Next::Refused),
        Held::Absent => Ok(Next::Refused),
    }
}

/// The task whose turn it is by an entry of a proc: the first of its ready list, unless the world is over.
pub fn task_of(state: &State, proc: u32) -> Option<TaskName>
    ensures { (made : Made) → result ≡ task_of (shared_of made state.now) state.now.over proc }
{
    if state.over.is_some() {
        return None;
    }
    first_ready(state.procs.as_slice(), proc as usize)
}

/// An entry.
pub fn step(
    alloc: Global,
    script: &[Function],
    world: World,
    entry: Entry,
) -> Result<Next, NoMemory>
    ensures { IfOk result (λ next. IsNext script.now (world_of script.now world) entry next) }
{
    match task_of(&world.state, entry.proc) {
        Some(task) => step_task(alloc, script, world, task, entry.pick),
        None => Ok(Next::Refused),
    }
}

/// What all can see before the first entry, over a store or as it is over: proc 0 with one task.
#[tactic(auto, using(crate::proofs::CountsOf::counts_open))]
pub fn opened(alloc: Global, store: Store, over: Option<Over>) -> Result<(State, Made), NoMemory>
    ensures { IfOk result (λ o. shared_of o.1 o.0 ≡ opening_shared store.region store.blocks over) }
{
    let task = TaskName { proc: 0, number: 0 };
    let state = State {
        store,
        book: Book {
            channels: Items::new(alloc),
            waiting: Items::new(alloc),
        },
        procs: list_of_one(alloc, new_proc(alloc, None, task)?)?,
        started: with_count(Items::new(alloc), 0, 1)?,
        output: Items::new(alloc),
        went: Items::new(alloc),
        over,
    };
    let made = Made {
        entries: 0,
        of_procs: Items::new(alloc),
        line: 0,
    };
    Ok((state, made))
}

/// The first world, over an empty store.
pub fn opening(alloc: Global, region: u32, start: &Start) -> Result<World, NoMemory>
    requires { IsRegionSize region }
    ensures { IfOk result (λ w. (functions : List (List Instruction)) → world_of functions w ≡ opening (scripts functions) region [] start.now) }
{
    let (state, made) = opened(alloc, Store::new(alloc, region)?, None)?;
    let task = TaskName { proc: 0, number: 0 };
    let held = Held::Goes(begun(alloc, start)?);
    let tasks = list_of_one(alloc, Change { task, held })?;
    Ok(World { state, made, tasks })
}

// What each action does.

ghost use Rattle.std.specs.Prelude.{◌≡◌, option_map, IfOk};
ghost use Rattle.al_world.specs.Actions.{acts, performs};
ghost use Rattle.al_script.specs.Scripts.{IsSized};
ghost use Rattle.al_script.specs.Worlds.{shared_of, effect_of, Fits};

use crate::chans::{asks_recv, asks_send, frees_chan, makes_chan};
use crate::effects::{answer_nothing, at_zero, ended_by, trapped};
use crate::starts::{ends_task, starts_one_task, starts_par, starts_proc};
use crate::stores::{allocs, frees, loads, stores};
use crate::talks::{talks, waits_for};
use crate::tells::Effect;
use crate::world::{Made, State};
use al_base::{NoMemory, Over};
use al_event::{Act, Bytes};
use al_script_book::TaskName;
use std::alloc::Global;

/// Puts a text out.
fn prints(
    alloc: Global,
    made: &Made,
    state: State,
    task: TaskName,
    text: Bytes,
) -> Result<Effect, NoMemory>
    ensures { IfOk result (λ e. effect_of made.now e ≡ acts (shared_of made.now state) task (Act.Print text)) }
{
    let mut state = state;
    state.output.append(text)?;
    answer_nothing(alloc, state, task)
}

/// What an action does that is no talk; a talk blocks.
fn acts(
    alloc: Global,
    made: &Made,
    state: State,
    task: TaskName,
    act: Act,
) -> Result<Effect, NoMemory>
    requires sized { IsSized act }
    requires fits { Fits (shared_of made.now state) task act }
    ensures { IfOk result (λ e. effect_of made.now e ≡ acts (shared_of made.now state) task act) }
{
    match act {
        Act::Load { at, size } => loads(alloc, made, state, task, at, size),
        Act::Store { at, size, word } => stores(alloc, made, state, task, at, size, word),
        Act::Alloc { bytes, kind } => allocs(alloc, made, state, task, bytes, kind),
        Act::Free { at, kind } => frees(alloc, made, state, task, at, kind),
        Act::NewChan { capacity, words } => makes_chan(alloc, made, state, task, capacity, words),
        Act::FreeChan { chan } => frees_chan(alloc, made, state, task, chan),
        Act::CanRecv { chan } => asks_recv(alloc, made, state, task, chan),
        Act::CanSend { chan } => asks_send(alloc, made, state, task, chan),
        Act::Talk { branches } => waits_for(alloc, made, state, task, branches.as_slice()),
        Act::Proc(start) => starts_proc(alloc, made, state, task, start),
        Act::Task(start) => starts_one_task(alloc, made, state, task, start),
        Act::Par { starts } => starts_par(alloc, made, state, task, starts.as_slice()),
        Act::Print { text } => prints(alloc, made, state, task, text),
        Act::Terminate(status) => Ok(ended_by(alloc, made, state, Over::Stopped(status))),
        Act::Pause => answer_nothing(alloc, state, task),
        Act::Trap(trap) => Ok(trapped(alloc, made, state, task, trap)),
        Act::End => ends_task(alloc, made, state, task),
    }
}

/// What an action does under a pick; none where the pick is out of range.
pub fn performs(
    alloc: Global,
    made: &Made,
    state: State,
    task: TaskName,
    act: Act,
    pick: u16,
) -> Result<Option<Effect>, NoMemory>
    requires sized { IsSized act }
    requires fits { Fits (shared_of made.now state) task act }
    ensures { IfOk result (λ e. option_map (effect_of made.now) e ≡ performs (shared_of made.now state) task act pick) }
{
    if let Act::Talk { branches } = &act {
        return talks(alloc, made, state, task, branches.as_slice(), pick);
    }
    let effect = acts(alloc, made, state, task, act)?;
    Ok(at_zero(made, pick, effect))
}

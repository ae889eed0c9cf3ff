// Talks: sends, receives and alts.

ghost use Rattle.std.specs.Prelude.{◌≡◌, ◌<◌, ◌^◌, ◌∷◌, length, map, option_map, true, IfOk};
ghost use Rattle.al_world.specs.World.{Answered};
ghost use Rattle.al_world.specs.Actions.{goes_or_waits, talk_of, talks, wakes, wake_told, waits_for};
ghost use Rattle.al_script.specs.Worlds.{shared_of, effect_of, message_of};

use crate::counts::count_in;
use crate::effects::{at_zero, trapped};
use crate::lists::before;
use crate::tells::{Effect, Message, Told};
use crate::world::{Made, State};
use al_base::{NoMemory, Trap};
use al_event::{Branch, Words};
use al_items::Items;
use al_script_book::{
    Fired, ProcState, TalkName, TaskName, Woken, blocks, fires, joins_ready, leaves_ready,
    list_of_one,
};
use std::alloc::Global;

/// The name of a talk that is asked now.
fn talk_of(made: &Made, state: &State, task: TaskName) -> TalkName
    ensures { result ≡ talk_of (shared_of made.now state.now) task }
{
    TalkName {
        task,
        entry: count_in(made.of_procs.as_slice(), task.proc),
    }
}

/// The procs after a talk: the task that it woke joins the end of its ready list.
fn wakes(
    alloc: Global,
    woke: &Option<Woken>,
    procs: Items<ProcState>,
) -> Result<Items<ProcState>, NoMemory>
    ensures { IfOk result (λ after. after ≡ wakes woke.now procs) }
{
    match woke {
        None => Ok(procs),
        Some(woken) => {
            let task = woken.by.task;
            joins_ready(alloc, task.proc as usize, task, procs)
        }
    }
}

/// What the tasks are told of a talk that went.
fn told_of(
    alloc: Global,
    task: TaskName,
    branch: u32,
    words: Words,
    woke: Option<Woken>,
) -> Result<Items<Message>, NoMemory>
    ensures { IfOk result (λ told. map message_of told ≡ (task, Answered (branch ∷ words)) ∷ wake_told woke) }
{
    let words = before(alloc, branch, words)?;
    let message = Message {
        to: task,
        told: Told::Answered(words),
    };
    let mut told = list_of_one(alloc, message)?;
    if let Some(woken) = woke {
        let Woken { by, branch, words } = woken;
        let words = before(alloc, branch, words)?;
        told.push(Message {
            to: by.task,
            told: Told::Answered(words),
        })?;
    }
    Ok(told)
}

/// A talk goes: pair number `pick` of those that are ready; none where there is no such pair.
fn goes(
    alloc: Global,
    made: &Made,
    state: State,
    task: TaskName,
    branches: &[Branch],
    pick: u16,
) -> Result<Option<Effect>, NoMemory>
    requires { length branches.now < 2 ^ 32 }
    ensures { IfOk result (λ e. option_map (effect_of made.now) e ≡ goes_or_waits (shared_of made.now state) task branches.now pick true) }
{
    let talk = talk_of(made, &state, task);
    let State {
        store,
        book,
        procs,
        started,
        output,
        went,
        over,
    } = state;
    let Some(fired) = fires(alloc, book, talk, branches, pick)? else {
        return Ok(None);
    };
    let Fired {
        book,
        branch,
        words,
        woke,
        went: more,
    } = fired;
    let mut went = went;
    went.append(more)?;
    let procs = wakes(alloc, &woke, procs)?;
    let told = told_of(alloc, task, branch, words, woke)?;
    let state = State {
        store,
        book,
        procs,
        started,
        output,
        went,
        over,
    };
    Ok(Some(Effect { state, told }))
}

/// A talk blocks, and its task leaves its ready list.
pub fn waits_for(
    alloc: Global,
    made: &Made,
    state: State,
    task: TaskName,
    branches: &[Branch],
) -> Result<Effect, NoMemory>
    requires { length branches.now < 2 ^ 32 }
    ensures { IfOk result (λ e. effect_of made.now e ≡ waits_for (shared_of made.now state) task branches.now) }
{
    let talk = talk_of(made, &state, task);
    let State {
        store,
        book,
        procs,
        started,
        output,
        went,
        over,
    } = state;
    let state = State {
        store,
        book: blocks(alloc, book, talk, branches)?,
        procs: leaves_ready(alloc, task.proc as usize, procs)?,
        started,
        output,
        went,
        over,
    };
    Ok(Effect {
        state,
        told: Items::new(alloc),
    })
}

/// A bad branch traps; else the pair of a number goes, and the task blocks where there is no pair.
pub fn talks(
    alloc: Global,
    made: &Made,
    state: State,
    task: TaskName,
    branches: &[Branch],
    pick: u16,
) -> Result<Option<Effect>, NoMemory>
    requires { length branches.now < 2 ^ 32 }
    ensures { IfOk result (λ e. option_map (effect_of made.now) e ≡ talks (shared_of made.now state) task branches.now pick) }
{
    if state.book.has_bad(branches) {
        let effect = trapped(alloc, made, state, task, Trap::Chan);
        return Ok(at_zero(made, pick, effect));
    }
    if state.book.is_some_ready(alloc, branches)? {
        goes(alloc, made, state, task, branches, pick)
    } else {
        let effect = waits_for(alloc, made, state, task, branches)?;
        Ok(at_zero(made, pick, effect))
    }
}

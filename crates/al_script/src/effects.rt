// What most actions do.

ghost use Rattle.std.specs.Prelude.{◌≡◌, [], ◌∷◌, option_map, IfOk};
ghost use Rattle.al_world.specs.Actions.{at_zero, ended_by, trapped, word_of};
ghost use Rattle.al_script.specs.Worlds.{shared_of, effect_of};

use crate::tells::{Effect, Message, Told};
use crate::world::{Made, State};
use al_base::{NoMemory, Over, Trap};
use al_event::Words;
use al_items::Items;
use al_script_book::{TaskName, list_of_one};
use std::alloc::Global;

/// The task gets this answer, and goes on.
pub fn answer(alloc: Global, state: State, task: TaskName, words: Words) -> Result<Effect, NoMemory>
    ensures { IfOk result (λ e. e ≡ record { state = state; told = record { to = task; told = Told.Answered words } ∷ [] }) }
{
    let told = Told::Answered(words);
    let told = list_of_one(alloc, Message { to: task, told })?;
    Ok(Effect { state, told })
}

/// The task gets an answer without words.
pub fn answer_nothing(alloc: Global, state: State, task: TaskName) -> Result<Effect, NoMemory>
    ensures { IfOk result (λ e. e ≡ record { state = state; told = record { to = task; told = Told.Answered [] } ∷ [] }) }
{
    answer(alloc, state, task, Items::new(alloc))
}

/// The task gets one word.
pub fn answer_word(
    alloc: Global,
    state: State,
    task: TaskName,
    word: u32,
) -> Result<Effect, NoMemory>
    ensures { IfOk result (λ e. e ≡ record { state = state; told = record { to = task; told = Told.Answered (word ∷ []) } ∷ [] }) }
{
    let words = list_of_one(alloc, word)?;
    answer(alloc, state, task, words)
}

/// A truth value as a word.
pub fn word_of(truth: bool) -> u32
    ensures { result ≡ word_of truth }
{
    if truth { 1 } else { 0 }
}

/// The world is over, and nothing else changes.
pub fn ended_by(alloc: Global, made: &Made, state: State, over: Over) -> Effect
    ensures { effect_of made.now result ≡ ended_by (shared_of made.now state) over }
{
    let State {
        store,
        book,
        procs,
        started,
        output,
        went,
        over: _,
    } = state;
    Effect {
        state: State {
            store,
            book,
            procs,
            started,
            output,
            went,
            over: Some(over),
        },
        told: Items::new(alloc),
    }
}

/// The task traps, at the number of this entry.
pub fn trapped(alloc: Global, made: &Made, state: State, task: TaskName, trap: Trap) -> Effect
    ensures { effect_of made.now result ≡ trapped (shared_of made.now state) task trap }
{
    let over = Over::Trapped {
        trap,
        proc: task.proc,
        at: made.entries,
    };
    ended_by(alloc, made, state, over)
}

/// An effect where pick is 0.
pub fn at_zero(made: &Made, pick: u16, effect: Effect) -> Option<Effect>
    ensures { option_map (effect_of made.now) result ≡ at_zero pick (effect_of made.now effect) }
{
    if pick == 0 { Some(effect) } else { None }
}

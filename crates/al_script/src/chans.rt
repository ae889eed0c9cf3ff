// Channels made, given up and asked.

ghost use Rattle.std.specs.Prelude.{◌≡◌, ◌+◌, ◌<◌, ◌^◌, [], ◌∷◌, length, IfOk};
ghost use Rattle.al_event.specs.declared.act.Act.TheVariants.{NewChan, FreeChan, CanRecv, CanSend};
ghost use Rattle.al_world.specs.Actions.{acts, answer, or_trap, word_of};
ghost use Rattle.al_script.specs.Worlds.{shared_of, effect_of};

use crate::effects::{answer_nothing, answer_word, trapped, word_of};
use crate::tells::Effect;
use crate::world::{Made, State};
use al_base::{NoMemory, Trap};
use al_script_book::{TaskName, can_recv, can_send, gives_up, makes};
use std::alloc::Global;

/// Makes a channel.
pub fn makes_chan(
    alloc: Global,
    made: &Made,
    state: State,
    task: TaskName,
    capacity: u32,
    words: u32,
) -> Result<Effect, NoMemory>
    requires { length state.book.channels + 1 < 2 ^ 32 }
    ensures { IfOk result (λ e. effect_of made.now e ≡ acts (shared_of made.now state) task (NewChan capacity words)) }
{
    let mut state = state;
    let number = makes(alloc, &mut state.book, capacity, words)?;
    answer_word(alloc, state, task, number)
}

/// Gives a channel up.
pub fn frees_chan(
    alloc: Global,
    made: &Made,
    state: State,
    task: TaskName,
    chan: u32,
) -> Result<Effect, NoMemory>
    ensures { IfOk result (λ e. effect_of made.now e ≡ acts (shared_of made.now state) task (FreeChan chan)) }
{
    let mut state = state;
    let lost = state.book.lost(alloc, chan)?;
    match gives_up(alloc, &mut state.book, chan) {
        Ok(()) => {
            state.went.push(lost)?;
            answer_nothing(alloc, state, task)
        }
        Err(trap) => Ok(trapped(alloc, made, state, task, trap)),
    }
}

/// Whether a talk could go, as an answer.
fn answers(
    alloc: Global,
    made: &Made,
    state: State,
    task: TaskName,
    could: Result<bool, Trap>,
) -> Result<Effect, NoMemory>
    ensures { IfOk result (λ e. effect_of made.now e ≡ or_trap (shared_of made.now state) task could (λ b. answer (shared_of made.now state) task (word_of b ∷ []))) }
{
    match could {
        Ok(truth) => answer_word(alloc, state, task, word_of(truth)),
        Err(trap) => Ok(trapped(alloc, made, state, task, trap)),
    }
}

/// Asks whether a receive could go at once.
pub fn asks_recv(
    alloc: Global,
    made: &Made,
    state: State,
    task: TaskName,
    chan: u32,
) -> Result<Effect, NoMemory>
    ensures { IfOk result (λ e. effect_of made.now e ≡ acts (shared_of made.now state) task (CanRecv chan)) }
{
    let could = can_recv(alloc, &state.book, chan)?;
    answers(alloc, made, state, task, could)
}

/// Asks whether a send could go at once.
pub fn asks_send(
    alloc: Global,
    made: &Made,
    state: State,
    task: TaskName,
    chan: u32,
) -> Result<Effect, NoMemory>
    ensures { IfOk result (λ e. effect_of made.now e ≡ acts (shared_of made.now state) task (CanSend chan)) }
{
    let could = can_send(alloc, &state.book, chan)?;
    answers(alloc, made, state, task, could)
}

// Accesses to shared storage.

ghost use Rattle.std.specs.Prelude.{◌≡◌, ◌<◌, IfOk};
ghost use Rattle.al_event.specs.declared.act.Act.TheVariants.{Load, Store as Stores, Alloc, Free};
ghost use Rattle.al_world.specs.Actions.{acts, free_trap};
ghost use Rattle.al_store.specs.Memory.{IsWidth};
ghost use Rattle.al_script.specs.Worlds.{shared_of, effect_of};

use crate::effects::{answer_nothing, answer_word, trapped};
use crate::tells::Effect;
use crate::world::{Made, State};
use al_base::{NoMemory, Trap};
use al_event::Block;
use al_script_book::TaskName;
use std::alloc::Global;

/// Reads shared storage.
pub fn loads(
    alloc: Global,
    made: &Made,
    state: State,
    task: TaskName,
    at: u32,
    size: u8,
) -> Result<Effect, NoMemory>
    requires { IsWidth size }
    ensures { IfOk result (λ e. effect_of made.now e ≡ acts (shared_of made.now state) task (Load at size)) }
{
    match state.store.load(at, size) {
        Ok(word) => answer_word(alloc, state, task, word),
        Err(trap) => Ok(trapped(alloc, made, state, task, trap)),
    }
}

/// Writes shared storage.
pub fn stores(
    alloc: Global,
    made: &Made,
    state: State,
    task: TaskName,
    at: u32,
    size: u8,
    word: u32,
) -> Result<Effect, NoMemory>
    requires { IsWidth size }
    ensures { IfOk result (λ e. effect_of made.now e ≡ acts (shared_of made.now state) task (Stores at size word)) }
{
    let mut state = state;
    match state.store.store(at, size, word) {
        Ok(()) => answer_nothing(alloc, state, task),
        Err(trap) => Ok(trapped(alloc, made, state, task, trap)),
    }
}

/// Takes a block.
pub fn allocs(
    alloc: Global,
    made: &Made,
    state: State,
    task: TaskName,
    bytes: u32,
    kind: Block,
) -> Result<Effect, NoMemory>
    requires { 0 < bytes }
    ensures { IfOk result (λ e. effect_of made.now e ≡ acts (shared_of made.now state) task (Alloc bytes kind)) }
{
    let mut state = state;
    match state.store.alloc_block(bytes, kind) {
        Ok(at) => answer_word(alloc, state, task, at),
        Err(trap) => Ok(trapped(alloc, made, state, task, trap)),
    }
}

/// A heap block that is not there traps by its own trap, another one as an illegal instruction.
fn free_trap(kind: Block, trap: Trap) -> Trap
    ensures { result ≡ free_trap kind trap }
{
    match kind {
        Block::Heap => trap,
        Block::Frame | Block::Global => Trap::Illegal,
    }
}

/// Gives a block back.
pub fn frees(
    alloc: Global,
    made: &Made,
    state: State,
    task: TaskName,
    at: u32,
    kind: Block,
) -> Result<Effect, NoMemory>
    ensures { IfOk result (λ e. effect_of made.now e ≡ acts (shared_of made.now state) task (Free at kind)) }
{
    let mut state = state;
    match state.store.free_block(at, kind) {
        Ok(()) => answer_nothing(alloc, state, task),
        Err(trap) => {
            let trap = free_trap(kind, trap);
            Ok(trapped(alloc, made, state, task, trap))
        }
    }
}

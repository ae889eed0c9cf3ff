//! The start of a task, and how it goes on with an answer.

ghost use Rattle.std.specs.Prelude.{◌≡◌, ◌+◌, ◌*◌, ◌<◌, ◌^◌, IfOk, IsTrue, length, slice_get};
ghost use Rattle.rv_exec.specs.Hart.{first_registers};
ghost use Rattle.rv_exec.specs.Calls.{has_function};
ghost use Rattle.rv_exec.specs.Machine.{started, entry_of};
ghost use Rattle.rv_exec.specs.Seen.{seen, words_of};

use crate::state::{State, Waits};
use al_base::NoMemory;
use rv_isa::addresses::{CODE_START, GLOBALS_START, STACK_START};
use rv_isa::image::Contents;
use std::alloc::Global;

/// What register 3 holds after each answer.
const FULL_TURNS: u32 = 4096;

/// The registers of a task at its start.
fn first_registers() -> [u32; 33]
    ensures { words_of result ≡ first_registers }
{
    let mut registers = [0; 33];
    registers[1] = CODE_START;
    registers[2] = STACK_START;
    registers[3] = FULL_TURNS;
    registers[4] = GLOBALS_START;
    registers
}

/// The entry of a function.
fn entry_of(image: &Contents, function: u32) -> u32
    ensures { result ≡ entry_of (slice_get image.now.functions function) }
{
    match image.functions.get(function as usize) {
        Some(row) => row.entry,
        None => 0,
    }
}

impl State {
    /// A task at the start of its function.
    pub fn start(
        alloc: Global,
        image: &Contents,
        function: u32,
        words: &[u32],
    ) -> Result<State, NoMemory>
        requires function { IsTrue (has_function image.now function (length words.now)) }
        requires entry { CODE_START + 4 * entry_of (slice_get image.now.functions function) < 2 ^ 32 }
        ensures { IfOk result (λ state. seen state ≡ started image.now function words.now) }
    {
        let entry = entry_of(image, function);
        let stack = Vec::from_slice(alloc, words)?;
        Ok(State {
            pc: CODE_START + 4 * entry,
            registers: first_registers(),
            stack,
            text: Vec::new(alloc),
            waits: Waits::Done,
            jumps: 0,
            work: 0,
        })
    }
}

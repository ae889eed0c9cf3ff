//! Copies.

ghost use Rattle.std.specs.Prelude.{◌≡◌, ℕ, List, IfOk, vec_len};
ghost use Rattle.rv_exec.specs.Seen.{seen};
ghost use Rattle.rv_exec.specs.Shown.{hart_of, privates_of, bytes_of, CanTake};

use crate::run::{Hart, Privates};
use crate::state::State;
use al_base::NoMemory;
use std::alloc::Global;

impl State {
    fn copy(&self, alloc: Global) -> Result<State, NoMemory>
        ensures seen { IfOk result (λ state. seen state ≡ seen self.now) }
        ensures pc { IfOk result (λ state. state.pc ≡ self.now.pc) }
        ensures waits { IfOk result (λ state. state.waits ≡ self.now.waits) }
        ensures stack { IfOk result (λ state. vec_len state.stack ≡ vec_len self.now.stack) }
    {
        Ok(State {
            pc: self.pc,
            registers: self.registers,
            stack: Vec::from_slice(alloc, self.stack.as_slice())?,
            text: Vec::from_slice(alloc, self.text.as_slice())?,
            waits: self.waits,
            jumps: self.jumps,
            work: self.work,
        })
    }
}

impl Hart {
    /// The same task once more. It can go on with the same answers.
    pub fn copy(&self, alloc: Global) -> Result<Hart, NoMemory>
        ensures same { IfOk result (λ hart. hart_of hart ≡ hart_of self.now) }
        ensures takes { IfOk result (λ hart. (words : List ℕ) → CanTake self.now words → CanTake hart words) }
    {
        let state = self.state.copy(alloc)?;
        Ok(Hart { state })
    }
}

impl Privates {
    /// The same words once more.
    pub fn copy(&self, alloc: Global) -> Result<Privates, NoMemory>
        ensures same { IfOk result (λ p. privates_of p ≡ privates_of self.now) }
        ensures bytes { IfOk result (λ p. bytes_of p ≡ bytes_of self.now) }
    {
        let words = Vec::from_slice(alloc, self.words.as_slice())?;
        Ok(Privates { words })
    }
}

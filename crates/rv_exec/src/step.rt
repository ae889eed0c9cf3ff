//! Fetching a word and doing what it says.

ghost use Rattle.std.specs.Prelude.{◌≡◌, ℕ, ◌+◌, ◌*◌, ◌<◌, ◌≤◌, ◌^◌, IfOk, OnErr, IfNone, IfSome, OnSome, length};
ghost use Rattle.rv_isa.specs.declared.addresses.TheConstants.{CODE_START};
ghost use Rattle.rv_exec.specs.Step.{step, performed, word_at};
ghost use Rattle.rv_exec.specs.Seen.{seen, words_of, move_of};
ghost use Rattle.rv_exec.specs.Answers.{IsReady};

use crate::state::State;
use al_base::{NoMemory, Trap};
use al_event::Act;
use rv_isa::addresses::CODE_START;
use rv_isa::decode;
use rv_isa::image::Contents;
use std::alloc::Global;

/// The word at an address, where the code has one.
#[inline(always)]
fn fetch(code: &[u32], pc: u32) -> Option<u32>
    requires { length code.now ≤ 2 ^ 23 }
    ensures value { result ≡ word_at code.now pc }
    ensures near { OnSome result (pc + 4 < 2 ^ 32) }
{
    if pc >= CODE_START && pc % 4 == 0 {
        code.get(((pc - CODE_START) / 4) as usize).copied()
    } else {
        None
    }
}

impl State {
    /// What a fetched word does.
    #[inline(always)]
    fn perform(
        &mut self,
        alloc: Global,
        image: &Contents,
        privates: &mut [u32],
        word: u32,
    ) -> Result<Option<Act>, NoMemory>
        requires room { self.old.pc + 4 < 2 ^ 32 }
        requires count { self.old.work + 1 < 2 ^ 64 }
        requires few { length privates.old ≤ 2 ^ 14 }
        requires size { image.now.privates ≡ 4 * length privates.old }
        ensures asked { IfOk result (λ asked. move_of asked (seen self.new) (words_of privates.new) ≡ performed word image.now (seen self.old) (words_of privates.old)) }
        ensures ready { IfOk result (λ asked. IfSome asked (λ act. IsReady self.new act)) }
        ensures work { IfOk result (λ asked. self.new.work ≡ self.old.work + 1) }
        ensures same { OnErr result (seen self.new ≡ seen self.old) }
        ensures kept { OnErr result (privates.new ≡ privates.old) }
    {
        self.work += 1;
        match decode(word) {
            Some(instr) => match self.execute(alloc, image, privates, instr) {
                Ok(asked) => Ok(asked),
                Err(no_memory) => {
                    self.work -= 1;
                    Err(no_memory)
                }
            },
            None => Ok(self.trap(Trap::Illegal)),
        }
    }

    /// One instruction. What it asks waits at that instruction.
    #[inline(always)]
    pub fn step(
        &mut self,
        alloc: Global,
        image: &Contents,
        privates: &mut [u32],
    ) -> Result<Option<Act>, NoMemory>
        requires code { length image.now.code ≤ 2 ^ 23 }
        requires count { self.old.work + 1 < 2 ^ 64 }
        requires few { length privates.old ≤ 2 ^ 14 }
        requires size { image.now.privates ≡ 4 * length privates.old }
        ensures asked { IfOk result (λ asked. move_of asked (seen self.new) (words_of privates.new) ≡ step image.now (seen self.old) (words_of privates.old)) }
        ensures ready { IfOk result (λ asked. IfSome asked (λ act. IsReady self.new act)) }
        ensures work { IfOk result (λ asked. IfNone asked (self.new.work ≡ self.old.work + 1)) }
        ensures same { OnErr result (seen self.new ≡ seen self.old) }
        ensures kept { OnErr result (privates.new ≡ privates.old) }
    {
        match fetch(image.code.as_slice(), self.pc) {
            Some(word) => self.perform(alloc, image, privates, word),
            None => Ok(self.trap(Trap::Illegal)),
        }
    }
}

//! Words of the stack that a call names.

ghost use Rattle.std.specs.Prelude.{◌≡◌, ℕ, ◌+◌, ◌*◌, ◌<◌, ◌≤◌, ◌^◌, IfOk, IfSome, slice_index};
ghost use Rattle.rv_exec.specs.Windows.{stack_place, stack_words, words_from};
ghost use Rattle.rv_exec.specs.Seen.{seen};

use crate::state::State;
use al_base::NoMemory;
use al_event::Words;
use al_items::Items;
use rv_isa::addresses::{STACK_END, STACK_START};
use std::alloc::Global;

/// The number of the first of so many words at an address of the stack.
pub fn stack_place(address: u32, count: u32) -> Option<u32>
    ensures place { result ≡ stack_place address count }
    ensures near { IfSome result (λ place. place + count < 2 ^ 32) }
{
    if count == 0 {
        Some(0)
    } else if address >= STACK_START
        && address as u64 + 4 * count as u64 <= STACK_END as u64
        && address % 4 == 0
    {
        Some((address - STACK_START) / 4)
    } else {
        None
    }
}

impl State {
    /// A word of the stack.
    #[inline(always)]
    pub fn word(&self, number: u32) -> u32
        ensures { result ≡ slice_index self.now.stack.items number }
    {
        self.stack.get(number as usize).copied().unwrap_or(0)
    }

    /// So many words of the stack from a number on.
    fn words_from(&self, alloc: Global, first: u32, count: u32) -> Result<Words, NoMemory>
        requires { first + count < 2 ^ 32 }
        ensures { IfOk result (λ words. words ≡ words_from (seen self.now).stack first count) }
    {
        let mut words = Items::with_capacity(alloc, count as usize)?;
        for k in 0..count {
            words.push(self.word(first + k))?;
        }
        Ok(words)
    }

    /// So many words at an address of the stack.
    pub fn stack_words(
        &self,
        alloc: Global,
        address: u32,
        count: u32,
    ) -> Result<Option<Words>, NoMemory>
        ensures { IfOk result (λ words. words ≡ stack_words (seen self.now) address count) }
    {
        match stack_place(address, count) {
            Some(first) => Ok(Some(self.words_from(alloc, first, count)?)),
            None => Ok(None),
        }
    }
}

//! The private windows, as words.

ghost use Rattle.std.specs.Prelude.{◌≡◌, ℕ, ◌+◌, ◌-◌, ◌*◌, ◌/◌, ◌%◌, ◌^◌, ◌<◌, ◌≤◌, IfOk, OnOk, vec_len, slice_index, length};
ghost use Rattle.rv_exec.specs.Windows.{offset_in, window_of};
ghost use Rattle.rv_exec.specs.Words.{with_unit};
ghost use Rattle.rv_exec.specs.Step.{read_unit, write_unit};
ghost use Rattle.rv_exec.specs.Seen.{words_of};

use al_base::{NoMemory, Trap};

/// Where a load or store goes.
#[derive(Clone, Copy, Debug, Drop, PartialEq, Eq)]
pub enum Window {
    /// The private stack of the task.
    Stack,
    /// The private globals of the proc.
    Globals,
    /// The shared region.
    Shared,
}

/// Where a load or store goes, by its base register.
#[inline(always)]
pub fn window_of(rs1: u8) -> Window
    ensures { result ≡ window_of rs1 }
{
    if rs1 == 2 || rs1 == 8 {
        Window::Stack
    } else if rs1 == 4 {
        Window::Globals
    } else {
        Window::Shared
    }
}

/// The offset of an access of `size` bytes in a window from `start` up to `end`.
#[inline(always)]
pub fn offset_in(start: u32, end: u32, size: u8, address: u32) -> Result<u32, Trap>
    requires { 1 ≤ size }
    ensures offset { result ≡ offset_in start end size address }
    ensures within { IfOk result (λ offset. start + offset + size ≤ end) }
{
    if address < start || address as u64 + size as u64 > end as u64 {
        Err(Trap::Illegal)
    } else if address % size as u32 == 0 {
        Ok(address - start)
    } else {
        Err(Trap::Align)
    }
}

/// The unit of `size` bytes at an offset.
#[inline(always)]
pub fn read_unit(words: &[u32], size: u8, offset: u32) -> u32
    requires { size ≤ 4 }
    ensures { result ≡ read_unit (words_of words.now) size offset }
{
    let word = words.get((offset / 4) as usize).copied().unwrap_or(0);
    ((word as u64 >> (8 * (offset % 4))) % (1 << (8 * size as u32))) as u32
}

/// The word with another unit at an offset below 4.
#[inline(always)]
fn with_unit(size: u8, offset: u32, word: u32, unit: u32) -> u32
    requires offset { offset < 4 }
    requires size { size ≤ 4 }
    ensures { result ≡ with_unit size offset word unit }
{
    let low = 8 * offset;
    let high = 8 * (offset + size as u32);
    let word = word as u64;
    let unit = unit as u64 % (1 << (8 * size as u32));
    ((word % (1 << low) + unit * (1 << low) + word / (1 << high) * (1 << high)) % (1 << 32)) as u32
}

/// Puts a unit of `size` bytes at an offset.
#[inline(always)]
pub fn write_unit(words: &mut [u32], size: u8, offset: u32, unit: u32)
    requires size { size ≤ 4 }
    requires within { offset / 4 < length words.old }
    ensures { words_of words.new ≡ write_unit (words_of words.old) size offset unit }
{
    let at = (offset / 4) as usize;
    words[at] = with_unit(size, offset % 4, words[at], unit);
}

/// Makes the words up to this one stand there, the new ones 0.
pub fn reach(words: &mut Vec<u32>, number: usize) -> Result<(), NoMemory>
    ensures long { OnOk result (number < vec_len words.new) }
    ensures same { (n : ℕ) → slice_index words.new.items n ≡ slice_index words.old.items n }
    ensures grows { vec_len words.old ≤ vec_len words.new }
{
    while words.len() <= number {
        words.push(0)?;
    }
    Ok(())
}

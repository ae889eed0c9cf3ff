//! Slots that are zeroed.

ghost use Rattle.std.specs.Prelude.{◌≡◌, ◌+◌, ◌*◌, ◌^◌, ◌<◌, ◌≤◌, ◌++◌, OnOk};
ghost use Rattle.rv_regs.specs.Homes.{home_at};
ghost use Rattle.rv_form.specs.Units.{zero_each, zero_from, zero_loop, zero_code};

use al_base::NoMemory;
use rv_emit::instrs::{branch, immediate, register, store};
use rv_emit::pieces::number;
use rv_emit_acts::homes::home_of;
use rv_emit_acts::units::{frame_address, zero_word};
use rv_isa::instr::{BranchOp, ImmediateOp, Instr, RegisterOp, StoreOp};
use rv_regs::Homes;

/// The register that goes over words of the frame.
pub const WORDS: u8 = 8;
/// The register of the address behind the last one.
const END: u8 = 5;
/// So many words are zeroed in a round.
const ROUND: u32 = 8;

/// Zeroes so many slots, one by one.
fn zero_each(code: &mut Vec<Instr>, homes: &Homes, from: u32, count: u32) -> Result<(), NoMemory>
    requires { from + count ≤ 2 ^ 20 }
    ensures { OnOk result (code.new.items ≡ code.old.items ++ zero_each (home_at homes.now) from count) }
{
    let (mut slot, mut left) = (from, count);
    while left > 0 {
        zero_word(code, home_of(homes, slot))?;
        slot += 1;
        left -= 1;
    }
    Ok(())
}

/// Stores 0 in so many words, so many bytes behind the address in the register that goes over words.
fn zero_from(code: &mut Vec<Instr>, offset: u32, count: u32) -> Result<(), NoMemory>
    requires { offset + 4 * count ≤ 2 ^ 20 }
    ensures { OnOk result (code.new.items ≡ code.old.items ++ zero_from offset count) }
{
    let (mut at, mut left) = (offset, count);
    while left > 0 {
        store(code, StoreOp::Sw, WORDS, 0, at as i32)?;
        at += 4;
        left -= 1;
    }
    Ok(())
}

/// Zeroes words of the frame, eight in a round, and then those that are left.
fn zero_loop(code: &mut Vec<Instr>, to: u32, count: u32) -> Result<(), NoMemory>
    requires to { to < 2 ^ 20 }
    requires count { count < 2 ^ 20 }
    ensures { OnOk result (code.new.items ≡ code.old.items ++ zero_loop to count) }
{
    frame_address(code, WORDS, to)?;
    number(code, END, 32 * (count / ROUND))?;
    register(code, RegisterOp::Add, END, END, WORDS)?;
    zero_from(code, 0, 8)?;
    immediate(code, ImmediateOp::Addi, WORDS, WORDS, 32)?;
    branch(code, BranchOp::Bne, WORDS, END, -36)?;
    zero_from(code, 0, count % ROUND)
}

/// Zeroes so many slots. More than eight live in the frame.
pub fn zero(code: &mut Vec<Instr>, homes: &Homes, to: u32, count: u32) -> Result<(), NoMemory>
    requires { to + count ≤ 2 ^ 19 }
    ensures { OnOk result (code.new.items ≡ code.old.items ++ zero_code (home_at homes.now) to count) }
{
    if count <= 8 {
        zero_each(code, homes, to, count)
    } else {
        zero_loop(code, to, count)
    }
}

//! Pieces that many operations have.

ghost use Rattle.std.specs.Prelude.{◌≡◌, ◌*◌, ◌^◌, ◌<◌, [], ◌∷◌, ◌++◌, OnOk};
ghost use Rattle.al_base.specs.Trap.{number_of};
ghost use Rattle.rv_code.specs.Pieces.{number_code, call_code, trap_code, turn_code, up_code, down_code, private_load, private_store};
ghost use Rattle.rv_form.specs.Flow.{wide_number};

use crate::homes::FRAME;
use crate::instrs::{add, branch, immediate, load, low_part, register, store, upper};
use al_base::{NoMemory, Trap};
use rv_isa::addresses::GLOBALS_START;
use rv_isa::instr::{BranchOp, ImmediateOp, Instr, LoadOp, RegisterOp, StoreOp};

/// The register of the turns that are left.
pub const TURNS: u8 = 3;
/// The register of the private globals.
const GLOBALS: u8 = 4;
/// The register of a runtime call's first argument.
const ARGUMENT: u8 = 10;
/// The register of a runtime call's number.
const CALL: u8 = 17;

/// A word into a register.
pub fn number(code: &mut Vec<Instr>, rd: u8, n: u32) -> Result<(), NoMemory>
    ensures { OnOk result (code.new.items ≡ code.old.items ++ number_code rd n) }
{
    if n < 2048 {
        immediate(code, ImmediateOp::Addi, rd, 0, n as i32)
    } else if n >= u32::MAX - 2047 {
        let below = u32::MAX - n;
        immediate(code, ImmediateOp::Addi, rd, 0, -1 - below as i32)
    } else {
        wide_number(code, rd, n)
    }
}

/// A word into a register, by two instructions whatever it is.
pub fn wide_number(code: &mut Vec<Instr>, rd: u8, n: u32) -> Result<(), NoMemory>
    ensures { OnOk result (code.new.items ≡ code.old.items ++ wide_number rd n) }
{
    upper(code, rd, n)?;
    immediate(code, ImmediateOp::Addi, rd, rd, low_part(n))
}

/// The runtime call of that number.
pub fn call(code: &mut Vec<Instr>, number: u8) -> Result<(), NoMemory>
    ensures { OnOk result (code.new.items ≡ code.old.items ++ call_code number) }
{
    immediate(code, ImmediateOp::Addi, CALL, 0, number as i32)?;
    add(code, Instr::Ecall)
}

/// The number of a trap, from 1 on.
fn trap_number(trap: Trap) -> u8
    ensures { result ≡ number_of trap }
{
    match trap {
        Trap::Fault => 1,
        Trap::Align => 2,
        Trap::Divide => 3,
        Trap::Memory => 4,
        Trap::Unalloc => 5,
        Trap::Chan => 6,
        Trap::Busy => 7,
        Trap::Check => 8,
        Trap::Stack => 9,
        Trap::Tasks => 10,
        Trap::Print => 11,
        Trap::Illegal => 12,
        Trap::Call => 13,
    }
}

/// The runtime call that traps.
pub fn trap(code: &mut Vec<Instr>, trap: Trap) -> Result<(), NoMemory>
    ensures { OnOk result (code.new.items ≡ code.old.items ++ trap_code trap) }
{
    immediate(
        code,
        ImmediateOp::Addi,
        ARGUMENT,
        0,
        trap_number(trap) as i32,
    )?;
    call(code, 3)
}

/// A turn, which pauses where it is the last one.
pub fn turn(code: &mut Vec<Instr>) -> Result<(), NoMemory>
    ensures { OnOk result (code.new.items ≡ code.old.items ++ turn_code) }
{
    immediate(code, ImmediateOp::Addi, TURNS, TURNS, -1)?;
    branch(code, BranchOp::Bne, TURNS, 0, 12)?;
    call(code, 2)
}

/// The frame goes up by so many words.
pub fn up(code: &mut Vec<Instr>, words: u32) -> Result<(), NoMemory>
    requires { words < 2 ^ 20 }
    ensures { OnOk result (code.new.items ≡ code.old.items ++ up_code words) }
{
    wide_number(code, 5, 4 * words)?;
    register(code, RegisterOp::Add, FRAME, FRAME, 5)
}

/// The frame goes down by so many words.
pub fn down(code: &mut Vec<Instr>, words: u32) -> Result<(), NoMemory>
    requires { words < 2 ^ 20 }
    ensures { OnOk result (code.new.items ≡ code.old.items ++ down_code words) }
{
    wide_number(code, 5, 4 * words)?;
    register(code, RegisterOp::Sub, FRAME, FRAME, 5)
}

/// Loads a word of the private globals.
pub fn private_load(code: &mut Vec<Instr>, rd: u8, place: u32) -> Result<(), NoMemory>
    requires { place < 2 ^ 14 }
    ensures { OnOk result (code.new.items ≡ code.old.items ++ private_load rd place) }
{
    if place < 512 {
        load(code, LoadOp::Lw, rd, GLOBALS, (4 * place) as i32)
    } else {
        let at = GLOBALS_START + 4 * place;
        upper(code, GLOBALS, at)?;
        load(code, LoadOp::Lw, rd, GLOBALS, low_part(at))?;
        upper(code, GLOBALS, GLOBALS_START)
    }
}

/// Stores into a word of the private globals.
pub fn private_store(code: &mut Vec<Instr>, rs: u8, place: u32) -> Result<(), NoMemory>
    requires { place < 2 ^ 14 }
    ensures { OnOk result (code.new.items ≡ code.old.items ++ private_store rs place) }
{
    if place < 512 {
        store(code, StoreOp::Sw, GLOBALS, rs, (4 * place) as i32)
    } else {
        let at = GLOBALS_START + 4 * place;
        upper(code, GLOBALS, at)?;
        store(code, StoreOp::Sw, GLOBALS, rs, low_part(at))?;
        upper(code, GLOBALS, GLOBALS_START)
    }
}

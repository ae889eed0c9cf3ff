//! Routines on pairs of words: those that stand in line, and those of division, which stand once in the code and are called.

ghost use Rattle.std.specs.Prelude.{◌≡◌, ◌^◌, ◌≤◌, ◌++◌, All, slice_index, OnOk};
ghost use Rattle.rv_asm.specs.Asm.{instructions_of};
ghost use Rattle.rv_long.specs.Long.{IsArithmetic};
ghost use Rattle.rv_form.specs.Longs.{straight, routine_code, divide_instrs};
ghost use Rattle.rv_form.specs.Program.{division_number};

use al_base::{NoMemory, Trap};
use rv_asm::AsmLine;
use rv_emit::instrs::{add, branch, jump_by, register};
use rv_emit::pieces::trap;
use rv_emit_jumps::jumps::link;
use rv_isa::instr::{BranchOp, Instr, RegisterOp};
use rv_long::{LongOp, routine};
use std::alloc::Global;

/// The instructions of lines that have no labels.
fn add_lines(code: &mut Vec<Instr>, lines: &[AsmLine]) -> Result<(), NoMemory>
    requires { All IsArithmetic lines.now }
    ensures { OnOk result (code.new.items ≡ code.old.items ++ instructions_of lines.now) }
{
    for line in lines {
        if let AsmLine::Plain(instr) = line {
            add(code, *instr)?;
        }
    }
    Ok(())
}

/// An operation on the pairs in registers 10 and 11, and 12 and 13, that runs straight on.
pub fn straight(code: &mut Vec<Instr>, alloc: Global, op: LongOp) -> Result<(), NoMemory>
    ensures { OnOk result (code.new.items ≡ code.old.items ++ straight op) }
{
    let lines = routine(alloc, op)?;
    add_lines(code, lines.as_slice())
}

/// A routine, which returns by register 1.
pub fn routine_of(code: &mut Vec<Instr>, alloc: Global, op: LongOp) -> Result<(), NoMemory>
    ensures { OnOk result (code.new.items ≡ code.old.items ++ routine_code op) }
{
    straight(code, alloc, op)?;
    jump_by(code, 0, 1, 0)
}

/// A call of a routine of division, which traps where it divides by 0.
pub fn divide(code: &mut Vec<Instr>, place: u32) -> Result<(), NoMemory>
    requires { place ≤ 2 ^ 24 }
    ensures { OnOk result (code.new.items ≡ code.old.items ++ divide_instrs place) }
{
    register(code, RegisterOp::Or, 5, 12, 13)?;
    branch(code, BranchOp::Bne, 5, 0, 16)?;
    trap(code, Trap::Divide)?;
    link(code, place)
}

/// The number of a division among the routines.
pub fn division_number(division: LongOp) -> usize
    ensures { result ≡ division_number division }
{
    match division {
        LongOp::Div => 0,
        LongOp::DivU => 1,
        LongOp::Rem => 2,
        LongOp::RemU => 3,
        _ => 4,
    }
}

/// Where the routine of a division stands, of all their places.
pub fn routine_place(routines: &[u32], division: LongOp) -> u32
    requires { All (λ place. place ≤ 2 ^ 24) routines.now }
    ensures value { result ≡ slice_index routines.now (division_number division) }
    ensures near { result ≤ 2 ^ 24 }
{
    match routines.get(division_number(division)) {
        Some(place) => *place,
        None => 0,
    }
}

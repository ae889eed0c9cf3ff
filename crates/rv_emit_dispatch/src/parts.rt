//! The parts of a dispatcher.

ghost use Rattle.std.specs.Prelude.{◌≡◌, ◌+◌, ◌^◌, ◌≤◌, ◌++◌, All, length, slice_index, OnOk, nat_lt, nat_le, IfOk};
ghost use Rattle.std.specs.List.{filter};
ghost use Rattle.al_meaning.specs.Places.{function_address};
ghost use Rattle.al_ir.specs.Control.{function_at, stack_of};
ghost use Rattle.rv_code.specs.Jumps.{branch_code};
ghost use Rattle.rv_form.specs.Flow.{wide_number};
ghost use Rattle.rv_form.specs.Dispatch.{not_found, found_code, tree_code, Is};
ghost use Rattle.rv_emit_dispatch.specs.Stacks.{HaveRoom};

use al_base::NoMemory;
use al_ir::Ir;
use rv_code::Reach;
use rv_emit::instrs::{branch, immediate, jump_by};
use rv_emit::pieces::wide_number;
use rv_emit_jumps::calls::last_frame;
use rv_emit_jumps::jumps::{branch_to, place};
use rv_isa::instr::{BranchOp, ImmediateOp, Instr};
use std::alloc::Global;

/// No code of an image has more words.
const MOST: usize = 1 << 23;
/// The value of function number 0; each further one has 4 more.
const FIRST: u32 = 0x0800_0000;
/// The register of the first word's address of the function that was found.
const FOUND: u8 = 6;
/// The register of the greatest frame at which it finds room.
const ROOM: u8 = 7;
/// The register of the value that is called.
const VALUE: u8 = 10;

/// The number of the word that comes next. Where the code would be too great for an image there is no memory for it.
pub fn next_word(code: &Vec<Instr>) -> Result<u32, NoMemory>
    ensures value { IfOk result (λ at. at ≡ length code.now.items) }
    ensures few { IfOk result (λ at. at ≤ 2 ^ 23) }
{
    let count = code.as_slice().len();
    if count > MOST {
        return Err(NoMemory);
    }
    Ok(count as u32)
}

/// The value of a function into a register.
#[tactic(auto, using(crate::proofs::Values::value_wraps))]
pub fn value_of(code: &mut Vec<Instr>, rd: u8, function: u32) -> Result<(), NoMemory>
    ensures { OnOk result (code.new.items ≡ code.old.items ++ wide_number rd (function_address function)) }
{
    wide_number(code, rd, FIRST.wrapping_add(function.wrapping_mul(4)))
}

/// The words of a function's frame.
pub fn stack_of(ir: &Ir, function: u32) -> u32
    requires { HaveRoom ir.now }
    ensures value { result ≡ stack_of (function_at ir.now function) }
    ensures few { result ≤ 2 ^ 14 }
{
    match ir.functions.get(function as usize) {
        Some(f) => f.stack,
        None => 0,
    }
}

/// The first word of a function.
pub fn entry_of(entries: &[u32], function: u32) -> u32
    requires { All (λ entry. entry ≤ 2 ^ 24) entries.now }
    ensures value { result ≡ slice_index entries.now function }
    ensures near { result ≤ 2 ^ 24 }
{
    match entries.get(function as usize) {
        Some(entry) => *entry,
        None => 0,
    }
}

/// There is no such function.
pub fn not_found(code: &mut Vec<Instr>) -> Result<(), NoMemory>
    ensures { OnOk result (code.new.items ≡ code.old.items ++ not_found) }
{
    immediate(code, ImmediateOp::Addi, FOUND, 0, 0)?;
    jump_by(code, 0, 1, 0)
}

/// A function was found.
fn found(code: &mut Vec<Instr>, entry: u32, stack: u32) -> Result<(), NoMemory>
    requires entry { entry ≤ 2 ^ 24 }
    requires stack { stack ≤ 2 ^ 14 }
    ensures { OnOk result (code.new.items ≡ code.old.items ++ found_code entry stack) }
{
    wide_number(code, FOUND, place(entry))?;
    wide_number(code, ROOM, last_frame(0, stack))?;
    jump_by(code, 0, 1, 0)
}

/// Only this function is left.
pub fn one(
    code: &mut Vec<Instr>,
    ir: &Ir,
    entries: &[u32],
    at: u32,
    function: u32,
) -> Result<(), NoMemory>
    requires room { HaveRoom ir.now }
    requires entries { All (λ entry. entry ≤ 2 ^ 24) entries.now }
    ensures { OnOk result (code.new.items ≡ code.old.items ++ tree_code (λ f. slice_index entries.now f) (λ f. stack_of (function_at ir.now f)) at (Is function)) }
{
    value_of(code, FOUND, function)?;
    branch(code, BranchOp::Bne, VALUE, FOUND, 24)?;
    found(code, entry_of(entries, function), stack_of(ir, function))?;
    not_found(code)
}

/// Those from a function on stand at word `there`; the part stands at word `at`.
pub fn compare(code: &mut Vec<Instr>, function: u32, at: u32, there: u32) -> Result<(), NoMemory>
    requires at { at ≤ 2 ^ 24 }
    requires there { there ≤ 2 ^ 24 }
    ensures { OnOk result (code.new.items ≡ code.old.items ++ (wide_number 6 (function_address function) ++ branch_code Reach.Long BranchOp.Bgeu 10 6 (at + 2) there)) }
{
    value_of(code, FOUND, function)?;
    branch_to(
        code,
        Reach::Long,
        BranchOp::Bgeu,
        VALUE,
        FOUND,
        at + 2,
        there,
    )
}

/// The functions below a number.
pub fn below(alloc: Global, functions: &[u32], middle: u32) -> Result<Vec<u32>, NoMemory>
    ensures { IfOk result (λ some. some.items ≡ filter (λ g. nat_lt g middle) functions.now) }
{
    let some = functions
        .iter()
        .copied()
        .filter(|g| *g < middle)
        .collect(alloc)?;
    Ok(some)
}

/// The functions from a number on.
pub fn upwards(alloc: Global, functions: &[u32], middle: u32) -> Result<Vec<u32>, NoMemory>
    ensures { IfOk result (λ some. some.items ≡ filter (λ g. nat_le middle g) functions.now) }
{
    let some = functions
        .iter()
        .copied()
        .filter(|g| middle <= *g)
        .collect(alloc)?;
    Ok(some)
}

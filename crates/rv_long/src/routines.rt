//! Whole routines.

ghost use Rattle.std.specs.Prelude.{◌≡◌, ◌≤◌, ◌++◌, IfOk, OnOk, All, length};
ghost use Rattle.rv_isa.specs.Table.{InRange};
ghost use Rattle.rv_asm.specs.Asm.{instructions_of};
ghost use Rattle.rv_long.specs.Code.{lines_of, bits_of_division, code_of};
ghost use Rattle.rv_long.specs.Long.{Computes, IsArithmetic};
ghost use Rattle.rv_long.specs.declared.blocks.TheConstants.{SIGN, COMPLEMENT, ADD_SIGN, ABSOLUTE_RIGHT, CLEAR};

use crate::blocks::{
    ABSOLUTE_RIGHT, ADD_SIGN, CLEAR, COMPLEMENT, DIVIDE, MULTIPLY, POWER, REMAINDER, SHIFT_RIGHT,
    SIGN, SIGN_OF_QUOTIENT,
};
use crate::op::LongOp;
use crate::step::Step;
use al_base::NoMemory;
use rv_asm::AsmLine;
use std::alloc::Global;

/// A division makes a step for each bit of the dividend.
const BITS: u32 = 64;

/// The lines of an operation: at most 2,048 words, which run straight on to the word behind them. The crate's page says which
/// registers have the operands and the result. That the value is the wrapped one is stated by `Computes` in
/// `specs/Long.antt`.
pub fn routine(alloc: Global, op: LongOp) -> Result<Vec<AsmLine>, NoMemory>
    ensures code { IfOk result (λ lines. lines.items ≡ code_of op) }
    ensures computes { IfOk result (λ lines. Computes op lines.items) }
    ensures straight { IfOk result (λ lines. All IsArithmetic lines.items) }
    ensures in_range { IfOk result (λ lines. All InRange (instructions_of lines.items)) }
    ensures few { IfOk result (λ lines. length lines.items ≤ 2048) }
{
    let lines = code(alloc, op)?;
    Ok(lines)
}

/// The code of an operation.
fn code(alloc: Global, op: LongOp) -> Result<Vec<AsmLine>, NoMemory>
    ensures { IfOk result (λ lines. lines.items ≡ code_of op) }
{
    let mut lines = Vec::new(alloc);
    match op {
        LongOp::Mul => add(&mut lines, &MULTIPLY)?,
        LongOp::Sll => {
            add(&mut lines, &POWER)?;
            add(&mut lines, &MULTIPLY)?;
        }
        LongOp::Srl => add(&mut lines, &SHIFT_RIGHT)?,
        LongOp::Sra => {
            add(&mut lines, &SIGN)?;
            add(&mut lines, &COMPLEMENT)?;
            add(&mut lines, &SHIFT_RIGHT)?;
            add(&mut lines, &COMPLEMENT)?;
        }
        LongOp::DivU => add_division(&mut lines)?,
        LongOp::RemU => {
            add_division(&mut lines)?;
            add(&mut lines, &REMAINDER)?;
        }
        LongOp::Div => {
            add_absolutes(&mut lines)?;
            add(&mut lines, &SIGN_OF_QUOTIENT)?;
            add_division(&mut lines)?;
            add(&mut lines, &COMPLEMENT)?;
            add(&mut lines, &ADD_SIGN)?;
        }
        LongOp::Rem => {
            add_absolutes(&mut lines)?;
            add_division(&mut lines)?;
            add(&mut lines, &REMAINDER)?;
            add(&mut lines, &COMPLEMENT)?;
            add(&mut lines, &ADD_SIGN)?;
        }
    }
    Ok(lines)
}

/// Adds the lines of some steps.
fn add(lines: &mut Vec<AsmLine>, steps: &[Step]) -> Result<(), NoMemory>
    ensures { OnOk result (lines.new.items ≡ lines.old.items ++ lines_of steps.now) }
{
    for step in steps {
        lines.push(step.line())?;
    }
    Ok(())
}

/// Makes the absolute values of both operands, with the sign of the left one in a6 and that of the right one in a7.
fn add_absolutes(lines: &mut Vec<AsmLine>) -> Result<(), NoMemory>
    ensures { OnOk result (lines.new.items ≡ lines.old.items ++ lines_of SIGN ++ lines_of COMPLEMENT ++ lines_of ADD_SIGN ++ lines_of ABSOLUTE_RIGHT) }
{
    add(lines, &SIGN)?;
    add(lines, &COMPLEMENT)?;
    add(lines, &ADD_SIGN)?;
    add(lines, &ABSOLUTE_RIGHT)
}

/// Divides without signs: the quotient comes into a1:a0 and the remainder into a5:a4.
fn add_division(lines: &mut Vec<AsmLine>) -> Result<(), NoMemory>
    ensures { OnOk result (lines.new.items ≡ lines.old.items ++ lines_of CLEAR ++ bits_of_division) }
{
    add(lines, &CLEAR)?;
    for _ in 0..BITS {
        add(lines, &DIVIDE)?;
    }
    Ok(())
}

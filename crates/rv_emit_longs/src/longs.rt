//! Operations on pairs of words.

ghost use Rattle.std.specs.Prelude.{◌≡◌, ◌^◌, ◌≤◌, ◌++◌, true, All, slice_index, OnOk};
ghost use Rattle.rv_code.specs.Homes.{bring};
ghost use Rattle.rv_form.specs.Longs.{division_of, shift_right, long_instrs, computed_or_called, long_op_code};
ghost use Rattle.rv_form.specs.Program.{division_number};
ghost use Rattle.rv_emit.specs.Near.{IsNear};

use crate::routines::{divide, routine_place, straight};
use al_base::{NoMemory, Op};
use rv_code::Home;
use rv_emit::homes::bring;
use rv_emit::instrs::{immediate, register};
use rv_emit_pairs::pairs::{below, both, difference, leave_result};
use rv_isa::instr::{ImmediateOp, Instr, RegisterOp};
use rv_long::LongOp;
use std::alloc::Global;

/// The division that an operation is, if it is one.
pub fn division_of(op: Op, signed: bool) -> Option<LongOp>
    ensures { result ≡ division_of op signed }
{
    match op {
        Op::Div => Some(if signed { LongOp::Div } else { LongOp::DivU }),
        Op::Rem => Some(if signed { LongOp::Rem } else { LongOp::RemU }),
        _ => None,
    }
}

/// The shift to the right of signed pairs or of others.
fn shift_right(signed: bool) -> LongOp
    ensures { result ≡ shift_right signed }
{
    if signed { LongOp::Sra } else { LongOp::Srl }
}

/// The sum of two pairs.
fn sum(code: &mut Vec<Instr>) -> Result<(), NoMemory>
    ensures { OnOk result (code.new.items ≡ code.old.items ++ long_instrs Op.Add true) }
{
    register(code, RegisterOp::Add, 10, 10, 12)?;
    register(code, RegisterOp::Sltu, 5, 10, 12)?;
    register(code, RegisterOp::Add, 11, 11, 13)?;
    register(code, RegisterOp::Add, 11, 11, 5)
}

/// The difference of two pairs.
fn rest(code: &mut Vec<Instr>) -> Result<(), NoMemory>
    ensures { OnOk result (code.new.items ≡ code.old.items ++ long_instrs Op.Sub true) }
{
    register(code, RegisterOp::Sltu, 5, 10, 12)?;
    register(code, RegisterOp::Sub, 10, 10, 12)?;
    register(code, RegisterOp::Sub, 11, 11, 13)?;
    register(code, RegisterOp::Sub, 11, 11, 5)
}

/// What an operation computes in line of the pairs in registers 10 and 11, and 12 and 13.
fn compute(code: &mut Vec<Instr>, alloc: Global, op: Op, signed: bool) -> Result<(), NoMemory>
    ensures { OnOk result (code.new.items ≡ code.old.items ++ long_instrs op signed) }
{
    match op {
        Op::Add => sum(code),
        Op::Sub => rest(code),
        Op::Mul => straight(code, alloc, LongOp::Mul),
        Op::And => both(code, RegisterOp::And),
        Op::Or => both(code, RegisterOp::Or),
        Op::Xor => both(code, RegisterOp::Xor),
        Op::Shl => straight(code, alloc, LongOp::Sll),
        Op::Shr => straight(code, alloc, shift_right(signed)),
        Op::Lt => below(code, signed, 10, 11, 12, 13),
        Op::Le => {
            below(code, signed, 12, 13, 10, 11)?;
            immediate(code, ImmediateOp::Xori, 10, 10, 1)
        }
        Op::Eq => {
            difference(code)?;
            immediate(code, ImmediateOp::Sltiu, 10, 10, 1)
        }
        Op::Ne => {
            difference(code)?;
            register(code, RegisterOp::Sltu, 10, 0, 10)
        }
        Op::Div | Op::Rem => Ok(()),
    }
}

/// What an operation computes, in line or by a routine.
fn compute_or_call(
    code: &mut Vec<Instr>,
    alloc: Global,
    routines: &[u32],
    op: Op,
    signed: bool,
) -> Result<(), NoMemory>
    requires { All (λ place. place ≤ 2 ^ 24) routines.now }
    ensures { OnOk result (code.new.items ≡ code.old.items ++ computed_or_called (λ d. slice_index routines.now (division_number d)) (division_of op signed) op signed) }
{
    match division_of(op, signed) {
        Some(division) => divide(code, routine_place(routines, division)),
        None => compute(code, alloc, op, signed),
    }
}

/// A pair into two registers, the low word first.
fn bring_pair(code: &mut Vec<Instr>, low: Home, high: Home, rd: u8, rd1: u8) -> Result<(), NoMemory>
    requires low { IsNear low }
    requires high { IsNear high }
    ensures { OnOk result (code.new.items ≡ code.old.items ++ bring low rd ++ bring high rd1) }
{
    bring(code, low, rd)?;
    bring(code, high, rd1)
}

/// An operation on pairs. The second home of each is that of the slot behind the first, and `routines` has the places of the
/// routines of division.
pub fn long(
    code: &mut Vec<Instr>,
    alloc: Global,
    routines: &[u32],
    op: Op,
    signed: bool,
    to: Home,
    to1: Home,
    left: Home,
    left1: Home,
    right: Home,
    right1: Home,
) -> Result<(), NoMemory>
    requires routines { All (λ place. place ≤ 2 ^ 24) routines.now }
    requires to { IsNear to }
    requires to1 { IsNear to1 }
    requires left { IsNear left }
    requires left1 { IsNear left1 }
    requires right { IsNear right }
    requires right1 { IsNear right1 }
    ensures { OnOk result (code.new.items ≡ code.old.items ++ long_op_code (λ d. slice_index routines.now (division_number d)) op signed to to1 left left1 right right1) }
{
    bring_pair(code, left, left1, 10, 11)?;
    bring_pair(code, right, right1, 12, 13)?;
    compute_or_call(code, alloc, routines, op, signed)?;
    leave_result(code, op, to, to1)
}

//! Parts of operations on pairs, which stand in registers 10 and 11, and 12 and 13.

ghost use Rattle.std.specs.Prelude.{◌≡◌, ◌++◌, OnOk};
ghost use Rattle.rv_form.specs.Longs.{both, below_instrs, difference, leave_result, is_long_set_code};
ghost use Rattle.rv_emit.specs.Near.{IsNear};

use al_base::{NoMemory, Op};
use rv_code::Home;
use rv_emit::homes::{get, get_register, leave, put, put_register};
use rv_emit::instrs::{immediate, register};
use rv_emit::words::less;
use rv_isa::instr::{ImmediateOp, Instr, RegisterOp};

/// An operation on both words by themselves.
pub fn both(code: &mut Vec<Instr>, op: RegisterOp) -> Result<(), NoMemory>
    ensures { OnOk result (code.new.items ≡ code.old.items ++ both op) }
{
    register(code, op, 10, 10, 12)?;
    register(code, op, 11, 11, 13)
}

/// 1 where the pair in registers `a` and `a1` is below that in `b` and `b1`, into register 10.
pub fn below(
    code: &mut Vec<Instr>,
    signed: bool,
    a: u8,
    a1: u8,
    b: u8,
    b1: u8,
) -> Result<(), NoMemory>
    ensures { OnOk result (code.new.items ≡ code.old.items ++ below_instrs signed a a1 b b1) }
{
    register(code, less(signed), 5, a1, b1)?;
    register(code, RegisterOp::Xor, 6, a1, b1)?;
    immediate(code, ImmediateOp::Sltiu, 6, 6, 1)?;
    register(code, RegisterOp::Sltu, 7, a, b)?;
    register(code, RegisterOp::And, 7, 7, 6)?;
    register(code, RegisterOp::Or, 10, 5, 7)
}

/// The bits in which the pairs differ, into register 10.
pub fn difference(code: &mut Vec<Instr>) -> Result<(), NoMemory>
    ensures { OnOk result (code.new.items ≡ code.old.items ++ difference) }
{
    register(code, RegisterOp::Xor, 10, 10, 12)?;
    register(code, RegisterOp::Xor, 11, 11, 13)?;
    register(code, RegisterOp::Or, 10, 10, 11)
}

/// The result of an operation on pairs: one word where it compares.
pub fn leave_result(code: &mut Vec<Instr>, op: Op, to: Home, to1: Home) -> Result<(), NoMemory>
    requires to { IsNear to }
    requires to1 { IsNear to1 }
    ensures { OnOk result (code.new.items ≡ code.old.items ++ leave_result op to to1) }
{
    match op {
        Op::Lt | Op::Le | Op::Eq | Op::Ne => leave(code, to, 10),
        _ => {
            leave(code, to, 10)?;
            leave(code, to1, 11)
        }
    }
}

/// 1 where a pair is not 0, else 0.
pub fn is_long_set(code: &mut Vec<Instr>, to: Home, from: Home, from1: Home) -> Result<(), NoMemory>
    requires to { IsNear to }
    requires low { IsNear from }
    requires high { IsNear from1 }
    ensures { OnOk result (code.new.items ≡ code.old.items ++ is_long_set_code to from from1) }
{
    get(code, from, 10)?;
    get(code, from1, 11)?;
    register(
        code,
        RegisterOp::Or,
        10,
        get_register(from, 10),
        get_register(from1, 11),
    )?;
    register(code, RegisterOp::Sltu, put_register(to, 10), 0, 10)?;
    put(code, to, 10)
}

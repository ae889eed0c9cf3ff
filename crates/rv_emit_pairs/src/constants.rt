//! Operations on words with a constant of 12 bits on the right.

ghost use Rattle.std.specs.Prelude.{◌≡◌, ◌-◌, ◌^◌, ◌++◌, if◌then◌else◌, OnOk};
ghost use Rattle.rv_code.specs.Homes.{low_part};
ghost use Rattle.rv_code.specs.Pieces.{number_code};
ghost use Rattle.rv_form.specs.Words.{word_instrs, immediate_instrs, by_instrs, word_by_code};
ghost use Rattle.rv_emit.specs.Near.{IsNear};

use al_base::{NoMemory, Op};
use rv_code::Home;
use rv_emit::homes::{get, get_register, put, put_register};
use rv_emit::instrs::{immediate, low_part, register, shift};
use rv_emit::pieces::number;
use rv_emit::words::{LEFT, RIGHT, compute};
use rv_isa::instr::{ImmediateOp, Instr, RegisterOp, ShiftOp};

/// The least number of 12 bits, which has no negative of 12 bits.
const LEAST: u32 = 0xffff_f800;

/// The negative of a constant, as an immediate.
fn negative_part(word: u32) -> i32
    ensures { result ≡ low_part (2 ^ 32 - word) }
{
    let negative = (1 << 32) - word as u64;
    low_part((negative % 4096) as u32)
}

fn shift_right(signed: bool) -> ShiftOp
    ensures value { result ≡ (if signed then ShiftOp.Srai else ShiftOp.Srli) }
{
    if signed { ShiftOp::Srai } else { ShiftOp::Srli }
}

fn less(signed: bool) -> ImmediateOp
    ensures value { result ≡ (if signed then ImmediateOp.Slti else ImmediateOp.Sltiu) }
{
    if signed {
        ImmediateOp::Slti
    } else {
        ImmediateOp::Sltiu
    }
}

/// The constant comes into a register first.
fn compute_far(
    code: &mut Vec<Instr>,
    op: Op,
    signed: bool,
    d: u8,
    a: u8,
    word: u32,
) -> Result<(), NoMemory>
    ensures { OnOk result (code.new.items ≡ code.old.items ++ (number_code 11 word ++ word_instrs op signed d a 11)) }
{
    number(code, RIGHT, word)?;
    compute(code, op, signed, d, a, RIGHT)
}

/// What an operation computes of the word in register `a` and a constant, into register `d`.
fn compute_by(
    code: &mut Vec<Instr>,
    op: Op,
    signed: bool,
    d: u8,
    a: u8,
    word: u32,
) -> Result<(), NoMemory>
    ensures { OnOk result (code.new.items ≡ code.old.items ++ by_instrs (immediate_instrs op signed d a word) op signed d a word) }
{
    match op {
        Op::Add => immediate(code, ImmediateOp::Addi, d, a, low_part(word)),
        Op::Sub => {
            if word == LEAST {
                compute_far(code, op, signed, d, a, word)
            } else {
                immediate(code, ImmediateOp::Addi, d, a, negative_part(word))
            }
        }
        Op::And => immediate(code, ImmediateOp::Andi, d, a, low_part(word)),
        Op::Or => immediate(code, ImmediateOp::Ori, d, a, low_part(word)),
        Op::Xor => immediate(code, ImmediateOp::Xori, d, a, low_part(word)),
        Op::Shl => shift(code, ShiftOp::Slli, d, a, (word % 32) as u8),
        Op::Shr => shift(code, shift_right(signed), d, a, (word % 32) as u8),
        Op::Lt => immediate(code, less(signed), d, a, low_part(word)),
        Op::Eq => {
            immediate(code, ImmediateOp::Xori, d, a, low_part(word))?;
            immediate(code, ImmediateOp::Sltiu, d, d, 1)
        }
        Op::Ne => {
            immediate(code, ImmediateOp::Xori, d, a, low_part(word))?;
            register(code, RegisterOp::Sltu, d, 0, d)
        }
        Op::Mul | Op::Div | Op::Rem | Op::Le => compute_far(code, op, signed, d, a, word),
    }
}

/// An operation on a slot and a constant.
pub fn word_by(
    code: &mut Vec<Instr>,
    op: Op,
    signed: bool,
    to: Home,
    left: Home,
    word: u32,
) -> Result<(), NoMemory>
    requires to { IsNear to }
    requires left { IsNear left }
    ensures { OnOk result (code.new.items ≡ code.old.items ++ word_by_code op signed to left word) }
{
    get(code, left, LEFT)?;
    let d = put_register(to, LEFT);
    compute_by(code, op, signed, d, get_register(left, LEFT), word)?;
    put(code, to, LEFT)
}

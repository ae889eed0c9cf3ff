//! Conversions between integers of all kinds.

ghost use Rattle.std.specs.Prelude.{◌≡◌, ◌++◌, OnOk};
ghost use Rattle.rv_form.specs.Words.{extended, low_word, sign_word, high_word, convert_code};
ghost use Rattle.rv_emit.specs.Near.{IsNear};

use al_base::{Kind, NoMemory};
use rv_code::Home;
use rv_emit::homes::{bring, get, get_register, leave, put, put_register};
use rv_emit::instrs::{immediate, shift};
use rv_emit::words::{LEFT, low_bytes};
use rv_isa::instr::{ImmediateOp, Instr, ShiftOp};

/// The word of an integer of a kind in register `a`, extended into register `d`.
fn extend(code: &mut Vec<Instr>, kind: Kind, d: u8, a: u8) -> Result<(), NoMemory>
    ensures { OnOk result (code.new.items ≡ code.old.items ++ extended kind d a) }
{
    match kind {
        Kind::Byte => low_bytes(code, 1, d, a),
        Kind::Sint => {
            shift(code, ShiftOp::Slli, d, a, 16)?;
            shift(code, ShiftOp::Srai, d, d, 16)
        }
        Kind::Usint => low_bytes(code, 2, d, a),
        Kind::Int | Kind::Uint | Kind::Lint | Kind::Ulint => {
            immediate(code, ImmediateOp::Addi, d, a, 0)
        }
    }
}

/// The low word of what is converted.
fn low_word(code: &mut Vec<Instr>, from: Kind, into: Kind, d: u8, a: u8) -> Result<(), NoMemory>
    ensures { OnOk result (code.new.items ≡ code.old.items ++ low_word from into d a) }
{
    if into.width() <= from.width() {
        low_bytes(code, into.width() / 8, d, a)
    } else {
        extend(code, from, d, a)
    }
}

/// The high word of an extended word in register 10, into register 11.
fn sign_word(code: &mut Vec<Instr>, signed: bool) -> Result<(), NoMemory>
    ensures { OnOk result (code.new.items ≡ code.old.items ++ sign_word signed) }
{
    if signed {
        shift(code, ShiftOp::Srai, 11, 10, 31)
    } else {
        immediate(code, ImmediateOp::Addi, 11, 0, 0)
    }
}

/// The high word of what is converted, into register 11.
fn high_word(code: &mut Vec<Instr>, from: Kind, of1: Home) -> Result<(), NoMemory>
    requires { IsNear of1 }
    ensures { OnOk result (code.new.items ≡ code.old.items ++ high_word from of1) }
{
    if from.width() == 64 {
        bring(code, of1, 11)
    } else {
        sign_word(code, from.is_signed())
    }
}

/// An integer of one kind as one of another. The second home of each is that of the slot behind the first.
pub fn convert(
    code: &mut Vec<Instr>,
    from: Kind,
    into: Kind,
    to: Home,
    to1: Home,
    of: Home,
    of1: Home,
) -> Result<(), NoMemory>
    requires to { IsNear to }
    requires to1 { IsNear to1 }
    requires of { IsNear of }
    requires of1 { IsNear of1 }
    ensures { OnOk result (code.new.items ≡ code.old.items ++ convert_code from into to to1 of of1) }
{
    if into.width() == 64 {
        bring(code, of, 10)?;
        low_word(code, from, into, 10, 10)?;
        high_word(code, from, of1)?;
        leave(code, to, 10)?;
        leave(code, to1, 11)
    } else {
        get(code, of, LEFT)?;
        let d = put_register(to, LEFT);
        low_word(code, from, into, d, get_register(of, LEFT))?;
        put(code, to, LEFT)
    }
}

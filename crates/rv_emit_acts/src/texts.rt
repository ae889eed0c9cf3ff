//! Texts that are composed, and the last runtime calls of a task.

ghost use Rattle.std.specs.Prelude.{◌≡◌, ◌++◌, OnOk};
ghost use Rattle.rv_form.specs.Words.{sign_word};
ghost use Rattle.rv_form.specs.Texts.{byte_code, character_code, decimal_call, decimal_code, long_decimal_code, hexadecimal_code, long_hexadecimal_code, print_code, terminate_code};
ghost use Rattle.rv_emit.specs.Near.{IsNear};

use al_base::NoMemory;
use rv_code::Home;
use rv_emit::homes::bring;
use rv_emit::instrs::{immediate, shift};
use rv_emit::pieces::call;
use rv_isa::instr::{ImmediateOp, Instr, ShiftOp};

/// A byte.
pub fn put_byte(code: &mut Vec<Instr>, byte: u8) -> Result<(), NoMemory>
    ensures { OnOk result (code.new.items ≡ code.old.items ++ byte_code byte) }
{
    immediate(code, ImmediateOp::Addi, 10, 0, byte as i32)?;
    call(code, 16)
}

/// The low byte of a word.
pub fn put_character(code: &mut Vec<Instr>, from: Home) -> Result<(), NoMemory>
    requires { IsNear from }
    ensures { OnOk result (code.new.items ≡ code.old.items ++ character_code from) }
{
    bring(code, from, 10)?;
    call(code, 16)
}

/// The high word of an extended word in register 10, into register 11.
pub fn sign_word(code: &mut Vec<Instr>, signed: bool) -> Result<(), NoMemory>
    ensures { OnOk result (code.new.items ≡ code.old.items ++ sign_word signed) }
{
    if signed {
        shift(code, ShiftOp::Srai, 11, 10, 31)
    } else {
        immediate(code, ImmediateOp::Addi, 11, 0, 0)
    }
}

/// The runtime call that composes a decimal number.
pub fn decimal_call(code: &mut Vec<Instr>, signed: bool) -> Result<(), NoMemory>
    ensures { OnOk result (code.new.items ≡ code.old.items ++ decimal_call signed) }
{
    let kind = if signed { 1 } else { 0 };
    immediate(code, ImmediateOp::Addi, 12, 0, kind)?;
    call(code, 17)
}

/// A word as a decimal number.
pub fn put_decimal(code: &mut Vec<Instr>, signed: bool, from: Home) -> Result<(), NoMemory>
    requires { IsNear from }
    ensures { OnOk result (code.new.items ≡ code.old.items ++ decimal_code signed from) }
{
    bring(code, from, 10)?;
    sign_word(code, signed)?;
    decimal_call(code, signed)
}

/// A pair as a decimal number.
pub fn put_long_decimal(
    code: &mut Vec<Instr>,
    signed: bool,
    from: Home,
    from1: Home,
) -> Result<(), NoMemory>
    requires low { IsNear from }
    requires high { IsNear from1 }
    ensures { OnOk result (code.new.items ≡ code.old.items ++ long_decimal_code signed from from1) }
{
    bring(code, from, 10)?;
    bring(code, from1, 11)?;
    decimal_call(code, signed)
}

/// A word as a hexadecimal number.
pub fn put_hex(code: &mut Vec<Instr>, from: Home) -> Result<(), NoMemory>
    requires { IsNear from }
    ensures { OnOk result (code.new.items ≡ code.old.items ++ hexadecimal_code from) }
{
    bring(code, from, 10)?;
    immediate(code, ImmediateOp::Addi, 11, 0, 0)?;
    call(code, 18)
}

/// A pair as a hexadecimal number.
pub fn put_long_hex(code: &mut Vec<Instr>, from: Home, from1: Home) -> Result<(), NoMemory>
    requires low { IsNear from }
    requires high { IsNear from1 }
    ensures { OnOk result (code.new.items ≡ code.old.items ++ long_hexadecimal_code from from1) }
{
    bring(code, from, 10)?;
    bring(code, from1, 11)?;
    call(code, 18)
}

/// Puts the composed text out.
pub fn print(code: &mut Vec<Instr>) -> Result<(), NoMemory>
    ensures { OnOk result (code.new.items ≡ code.old.items ++ print_code) }
{
    call(code, 14)
}

/// Ends the program.
pub fn terminate(code: &mut Vec<Instr>, status: Home) -> Result<(), NoMemory>
    requires { IsNear status }
    ensures { OnOk result (code.new.items ≡ code.old.items ++ terminate_code status) }
{
    bring(code, status, 10)?;
    call(code, 15)
}

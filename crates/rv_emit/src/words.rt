//! Operations on words of 32 bits.

ghost use Rattle.std.specs.Prelude.{◌≡◌, ◌*◌, ◌^◌, ◌<◌, ◌≤◌, [], ◌∷◌, ◌++◌, OnOk};
ghost use Rattle.rv_form.specs.Words.{constant_code, copy_code, less, divided, remaining, shifted_right, word_instrs, tested, word_code, complement_code, is_zero_code, low_bytes, extract_instrs, extract_code, offset_instrs, offset_code, scaled, moved_by, advance_code, between_code};
ghost use Rattle.rv_emit.specs.Near.{IsNear};

use crate::homes::{bring, frame_store, get, get_register, put, put_register};
use crate::instrs::{branch, high_part, immediate, low_part, register, shift};
use crate::pieces::{number, trap};
use al_base::{NoMemory, Op, Trap};
use rv_code::Home;
use rv_isa::instr::{BranchOp, ImmediateOp, Instr, RegisterOp, ShiftOp};

/// The register of the left operand, and of a result.
pub const LEFT: u8 = 10;
/// The register of the right operand.
pub const RIGHT: u8 = 11;
/// A further one.
pub const MORE: u8 = 12;

/// A constant into a slot.
pub fn constant(code: &mut Vec<Instr>, to: Home, word: u32) -> Result<(), NoMemory>
    requires { IsNear to }
    ensures { OnOk result (code.new.items ≡ code.old.items ++ constant_code to word) }
{
    number(code, put_register(to, LEFT), word)?;
    put(code, to, LEFT)
}

/// A slot's word into another.
pub fn copy(code: &mut Vec<Instr>, to: Home, from: Home) -> Result<(), NoMemory>
    requires to { IsNear to }
    requires from { IsNear from }
    ensures { OnOk result (code.new.items ≡ code.old.items ++ copy_code to from) }
{
    match to {
        Home::Frame(k) => {
            get(code, from, LEFT)?;
            frame_store(code, get_register(from, LEFT), k)
        }
        Home::Saved(r) => bring(code, from, r),
    }
}

/// The comparison of words, with their signs or without.
pub fn less(signed: bool) -> RegisterOp
    ensures { result ≡ less signed }
{
    if signed {
        RegisterOp::Slt
    } else {
        RegisterOp::Sltu
    }
}

/// The division of words.
pub fn divided(signed: bool) -> RegisterOp
    ensures { result ≡ divided signed }
{
    if signed {
        RegisterOp::Div
    } else {
        RegisterOp::Divu
    }
}

/// What a division leaves.
pub fn remaining(signed: bool) -> RegisterOp
    ensures { result ≡ remaining signed }
{
    if signed {
        RegisterOp::Rem
    } else {
        RegisterOp::Remu
    }
}

/// The shift to the right.
pub fn shifted_right(signed: bool) -> RegisterOp
    ensures { result ≡ shifted_right signed }
{
    if signed {
        RegisterOp::Sra
    } else {
        RegisterOp::Srl
    }
}

/// What an operation computes of the words in registers `a` and `b`, into register `d`.
pub fn compute(
    code: &mut Vec<Instr>,
    op: Op,
    signed: bool,
    d: u8,
    a: u8,
    b: u8,
) -> Result<(), NoMemory>
    ensures { OnOk result (code.new.items ≡ code.old.items ++ word_instrs op signed d a b) }
{
    match op {
        Op::Add => register(code, RegisterOp::Add, d, a, b),
        Op::Sub => register(code, RegisterOp::Sub, d, a, b),
        Op::Mul => register(code, RegisterOp::Mul, d, a, b),
        Op::Div => register(code, divided(signed), d, a, b),
        Op::Rem => register(code, remaining(signed), d, a, b),
        Op::And => register(code, RegisterOp::And, d, a, b),
        Op::Or => register(code, RegisterOp::Or, d, a, b),
        Op::Xor => register(code, RegisterOp::Xor, d, a, b),
        Op::Shl => register(code, RegisterOp::Sll, d, a, b),
        Op::Shr => register(code, shifted_right(signed), d, a, b),
        Op::Lt => register(code, less(signed), d, a, b),
        Op::Le => {
            register(code, less(signed), d, b, a)?;
            immediate(code, ImmediateOp::Xori, d, d, 1)
        }
        Op::Eq => {
            register(code, RegisterOp::Sub, d, a, b)?;
            immediate(code, ImmediateOp::Sltiu, d, d, 1)
        }
        Op::Ne => {
            register(code, RegisterOp::Sub, d, a, b)?;
            register(code, RegisterOp::Sltu, d, 0, d)
        }
    }
}

/// Traps where an operation divides by the word in register `b`, and that is 0.
pub fn test_divisor(code: &mut Vec<Instr>, op: Op, b: u8) -> Result<(), NoMemory>
    ensures { OnOk result (code.new.items ≡ code.old.items ++ tested op b) }
{
    match op {
        Op::Div | Op::Rem => {
            branch(code, BranchOp::Bne, b, 0, 16)?;
            trap(code, Trap::Divide)
        }
        _ => Ok(()),
    }
}

/// An operation on two slots.
pub fn word(
    code: &mut Vec<Instr>,
    op: Op,
    signed: bool,
    to: Home,
    left: Home,
    right: Home,
) -> Result<(), NoMemory>
    requires to { IsNear to }
    requires left { IsNear left }
    requires right { IsNear right }
    ensures { OnOk result (code.new.items ≡ code.old.items ++ word_code op signed to left right) }
{
    get(code, left, LEFT)?;
    get(code, right, RIGHT)?;
    let a = get_register(left, LEFT);
    let b = get_register(right, RIGHT);
    test_divisor(code, op, b)?;
    compute(code, op, signed, put_register(to, LEFT), a, b)?;
    put(code, to, LEFT)
}

/// Turns each bit of a slot's word.
pub fn complement(code: &mut Vec<Instr>, to: Home, from: Home) -> Result<(), NoMemory>
    requires to { IsNear to }
    requires from { IsNear from }
    ensures { OnOk result (code.new.items ≡ code.old.items ++ complement_code to from) }
{
    get(code, from, LEFT)?;
    immediate(
        code,
        ImmediateOp::Xori,
        put_register(to, LEFT),
        get_register(from, LEFT),
        -1,
    )?;
    put(code, to, LEFT)
}

/// 1 where a slot's word is 0, else 0.
pub fn is_zero(code: &mut Vec<Instr>, to: Home, from: Home) -> Result<(), NoMemory>
    requires to { IsNear to }
    requires from { IsNear from }
    ensures { OnOk result (code.new.items ≡ code.old.items ++ is_zero_code to from) }
{
    get(code, from, LEFT)?;
    immediate(
        code,
        ImmediateOp::Sltiu,
        put_register(to, LEFT),
        get_register(from, LEFT),
        1,
    )?;
    put(code, to, LEFT)
}

/// The low `size` bytes of register `a`, into register `d`.
pub fn low_bytes(code: &mut Vec<Instr>, size: u32, d: u8, a: u8) -> Result<(), NoMemory>
    ensures { OnOk result (code.new.items ≡ code.old.items ++ low_bytes size d a) }
{
    if size < 2 {
        immediate(code, ImmediateOp::Andi, d, a, 255)
    } else if size < 4 {
        shift(code, ShiftOp::Slli, d, a, 16)?;
        shift(code, ShiftOp::Srli, d, d, 16)
    } else {
        immediate(code, ImmediateOp::Addi, d, a, 0)
    }
}

/// So many bytes of register `a`, behind so many others of it, into register `d`.
pub fn extract_from(code: &mut Vec<Instr>, skip: u8, size: u8, d: u8, a: u8) -> Result<(), NoMemory>
    requires { skip < 4 }
    ensures { OnOk result (code.new.items ≡ code.old.items ++ extract_instrs skip size d a) }
{
    shift(code, ShiftOp::Srli, d, a, 8 * skip)?;
    if size < 4 {
        low_bytes(code, size as u32, d, d)
    } else {
        Ok(())
    }
}

/// So many bytes of a slot's word, behind so many others of it.
pub fn extract(
    code: &mut Vec<Instr>,
    to: Home,
    from: Home,
    skip: u8,
    size: u8,
) -> Result<(), NoMemory>
    requires to { IsNear to }
    requires from { IsNear from }
    requires skip { skip < 4 }
    ensures { OnOk result (code.new.items ≡ code.old.items ++ extract_code to from skip size) }
{
    get(code, from, LEFT)?;
    extract_from(
        code,
        skip,
        size,
        put_register(to, LEFT),
        get_register(from, LEFT),
    )?;
    put(code, to, LEFT)
}

/// So many bytes more than register `a`, into register `d`.
pub fn offset_from(code: &mut Vec<Instr>, bytes: u32, d: u8, a: u8) -> Result<(), NoMemory>
    ensures { OnOk result (code.new.items ≡ code.old.items ++ offset_instrs bytes d a) }
{
    if high_part(bytes) == 0 {
        immediate(code, ImmediateOp::Addi, d, a, low_part(bytes))
    } else {
        number(code, RIGHT, bytes)?;
        register(code, RegisterOp::Add, d, a, RIGHT)
    }
}

/// A slot's word and a constant added up.
pub fn offset(code: &mut Vec<Instr>, to: Home, from: Home, bytes: u32) -> Result<(), NoMemory>
    requires to { IsNear to }
    requires from { IsNear from }
    ensures { OnOk result (code.new.items ≡ code.old.items ++ offset_code to from bytes) }
{
    get(code, from, LEFT)?;
    offset_from(
        code,
        bytes,
        put_register(to, LEFT),
        get_register(from, LEFT),
    )?;
    put(code, to, LEFT)
}

/// The bytes of so many elements, from register `a` into register `d`.
pub fn scale(code: &mut Vec<Instr>, size: u32, d: u8, a: u8) -> Result<(), NoMemory>
    ensures { OnOk result (code.new.items ≡ code.old.items ++ scaled size d a) }
{
    if size == 1 {
        immediate(code, ImmediateOp::Addi, d, a, 0)
    } else if size == 2 {
        shift(code, ShiftOp::Slli, d, a, 1)
    } else if size == 4 {
        shift(code, ShiftOp::Slli, d, a, 2)
    } else {
        number(code, MORE, size)?;
        register(code, RegisterOp::Mul, d, a, MORE)
    }
}

/// Forward or back.
pub fn moved_by(back: bool) -> RegisterOp
    ensures { result ≡ moved_by back }
{
    if back {
        RegisterOp::Sub
    } else {
        RegisterOp::Add
    }
}

/// A pointer that moves by a count of elements.
pub fn advance(
    code: &mut Vec<Instr>,
    back: bool,
    size: u32,
    to: Home,
    pointer: Home,
    count: Home,
) -> Result<(), NoMemory>
    requires to { IsNear to }
    requires pointer { IsNear pointer }
    requires count { IsNear count }
    ensures { OnOk result (code.new.items ≡ code.old.items ++ advance_code back size to pointer count) }
{
    get(code, pointer, LEFT)?;
    get(code, count, RIGHT)?;
    scale(code, size, RIGHT, get_register(count, RIGHT))?;
    register(
        code,
        moved_by(back),
        put_register(to, LEFT),
        get_register(pointer, LEFT),
        RIGHT,
    )?;
    put(code, to, LEFT)
}

/// How many elements there are between two pointers.
pub fn between(
    code: &mut Vec<Instr>,
    size: u32,
    to: Home,
    left: Home,
    right: Home,
) -> Result<(), NoMemory>
    requires to { IsNear to }
    requires left { IsNear left }
    requires right { IsNear right }
    ensures { OnOk result (code.new.items ≡ code.old.items ++ between_code size to left right) }
{
    get(code, left, LEFT)?;
    get(code, right, RIGHT)?;
    register(
        code,
        RegisterOp::Sub,
        LEFT,
        get_register(left, LEFT),
        get_register(right, RIGHT),
    )?;
    number(code, RIGHT, size)?;
    register(code, RegisterOp::Div, put_register(to, LEFT), LEFT, RIGHT)?;
    put(code, to, LEFT)
}

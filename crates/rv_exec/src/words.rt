//! What the operations compute on words.

ghost use Rattle.std.specs.Prelude.{◌≡◌, ◌%◌, ◌*◌, ◌^◌, ◌<◌, ◌≤◌, IsTrue, ◌↔◌};
ghost use Rattle.rv_exec.specs.Words.{less_signed, flag, sum_of, difference_of, shifted_left, shifted_right, sign_extended, shifted_right_signed, quotient_signed, quotient, remainder_signed, remainder, computed, computed_immediate, shifted, is_taken, load_size, store_size, with_sign, extended};
ghost use Rattle.rv_isa.specs.declared.instr.RegisterOp.TheVariants.{Mulh, Mulhsu, Mulhu};

use rv_isa::instr::{BranchOp, ImmediateOp, LoadOp, RegisterOp, ShiftOp, StoreOp};

#[inline(always)]
fn flag(b: bool) -> u32
    ensures { result ≡ flag b }
{
    if b { 1 } else { 0 }
}

#[inline(always)]
fn less_signed(x: u32, y: u32) -> bool
    ensures { result ≡ less_signed x y }
{
    x.cast_signed() < y.cast_signed()
}

#[inline(always)]
fn shifted_left(x: u32, amount: u32) -> u32
    ensures { result ≡ shifted_left x amount }
{
    x << (amount % 32)
}

#[inline(always)]
fn shifted_right(x: u32, amount: u32) -> u32
    ensures { result ≡ shifted_right x amount }
{
    x >> (amount % 32)
}

#[inline(always)]
fn shifted_right_signed(x: u32, amount: u32) -> u32
    ensures { result ≡ shifted_right_signed x amount }
{
    let extended = if x < 1 << 31 {
        x as u64
    } else {
        x as u64 + 0xffff_ffff_0000_0000
    };
    ((extended >> (amount % 32)) % (1 << 32)) as u32
}

#[inline(always)]
fn product_high(x: u32, y: u32) -> u32
    ensures { result ≡ computed Mulh x y }
{
    let product = x.cast_signed() as i64 * y.cast_signed() as i64;
    (product.cast_unsigned() >> 32) as u32
}

#[inline(always)]
fn product_high_mixed(x: u32, y: u32) -> u32
    ensures { result ≡ computed Mulhsu x y }
{
    let product = x.cast_signed() as i64 * y as i64;
    (product.cast_unsigned() >> 32) as u32
}

#[inline(always)]
fn product_high_unsigned(x: u32, y: u32) -> u32
    ensures { result ≡ computed Mulhu x y }
{
    ((x as u64 * y as u64) >> 32) as u32
}

#[inline(always)]
fn quotient_signed(x: u32, y: u32) -> u32
    ensures { result ≡ quotient_signed x y }
{
    if y == 0 {
        0xffff_ffff
    } else if x == 0x8000_0000 && y == 0xffff_ffff {
        x
    } else {
        (x.cast_signed() / y.cast_signed()).cast_unsigned()
    }
}

#[inline(always)]
fn quotient(x: u32, y: u32) -> u32
    ensures { result ≡ quotient x y }
{
    if y == 0 { 0xffff_ffff } else { x / y }
}

#[inline(always)]
fn remainder_signed(x: u32, y: u32) -> u32
    ensures { result ≡ remainder_signed x y }
{
    if y == 0 {
        x
    } else if x == 0x8000_0000 && y == 0xffff_ffff {
        0
    } else {
        (x.cast_signed() % y.cast_signed()).cast_unsigned()
    }
}

#[inline(always)]
fn remainder(x: u32, y: u32) -> u32
    ensures { result ≡ remainder x y }
{
    if y == 0 { x } else { x % y }
}

/// An operation on two registers.
#[inline(always)]
pub fn computed(op: RegisterOp, x: u32, y: u32) -> u32
    ensures { result ≡ computed op x y }
{
    match op {
        RegisterOp::Add => x.wrapping_add(y),
        RegisterOp::Sub => x.wrapping_sub(y),
        RegisterOp::Sll => shifted_left(x, y),
        RegisterOp::Slt => flag(less_signed(x, y)),
        RegisterOp::Sltu => flag(x < y),
        RegisterOp::Xor => x ^ y,
        RegisterOp::Srl => shifted_right(x, y),
        RegisterOp::Sra => shifted_right_signed(x, y),
        RegisterOp::Or => x | y,
        RegisterOp::And => x & y,
        RegisterOp::Mul => x.wrapping_mul(y),
        RegisterOp::Mulh => product_high(x, y),
        RegisterOp::Mulhsu => product_high_mixed(x, y),
        RegisterOp::Mulhu => product_high_unsigned(x, y),
        RegisterOp::Div => quotient_signed(x, y),
        RegisterOp::Divu => quotient(x, y),
        RegisterOp::Rem => remainder_signed(x, y),
        RegisterOp::Remu => remainder(x, y),
    }
}

/// An operation on a register and an immediate, as a word.
#[inline(always)]
pub fn computed_immediate(op: ImmediateOp, x: u32, imm: u32) -> u32
    ensures { result ≡ computed_immediate op x imm }
{
    match op {
        ImmediateOp::Addi => x.wrapping_add(imm),
        ImmediateOp::Slti => flag(less_signed(x, imm)),
        ImmediateOp::Sltiu => flag(x < imm),
        ImmediateOp::Xori => x ^ imm,
        ImmediateOp::Ori => x | imm,
        ImmediateOp::Andi => x & imm,
    }
}

/// A shift by a constant amount.
#[inline(always)]
pub fn shifted(op: ShiftOp, x: u32, amount: u32) -> u32
    ensures { result ≡ shifted op x amount }
{
    match op {
        ShiftOp::Slli => shifted_left(x, amount),
        ShiftOp::Srli => shifted_right(x, amount),
        ShiftOp::Srai => shifted_right_signed(x, amount),
    }
}

/// Whether a branch is taken.
#[inline(always)]
pub fn is_taken(op: BranchOp, x: u32, y: u32) -> bool
    ensures { result ≡ is_taken op x y }
{
    match op {
        BranchOp::Beq => x == y,
        BranchOp::Bne => x != y,
        BranchOp::Blt => less_signed(x, y),
        BranchOp::Bge => !less_signed(x, y),
        BranchOp::Bltu => x < y,
        BranchOp::Bgeu => x >= y,
    }
}

/// The bytes that a load reads.
#[inline(always)]
pub fn load_size(op: LoadOp) -> u8
    ensures size { result ≡ load_size op }
    ensures least { 1 ≤ result }
    ensures most { result ≤ 4 }
{
    match op {
        LoadOp::Lb | LoadOp::Lbu => 1,
        LoadOp::Lh | LoadOp::Lhu => 2,
        LoadOp::Lw => 4,
    }
}

/// The bytes that a store writes.
#[inline(always)]
pub fn store_size(op: StoreOp) -> u8
    ensures size { result ≡ store_size op }
    ensures least { 1 ≤ result }
    ensures most { result ≤ 4 }
{
    match op {
        StoreOp::Sb => 1,
        StoreOp::Sh => 2,
        StoreOp::Sw => 4,
    }
}

/// What a load puts into its register.
#[inline(always)]
pub fn extended(op: LoadOp, unit: u32) -> u32
    ensures { result ≡ extended op unit }
{
    match op {
        LoadOp::Lb => {
            let unit = unit % (1 << 8);
            if unit < 1 << 7 {
                unit
            } else {
                unit + 0xffff_ff00
            }
        }
        LoadOp::Lh => {
            let unit = unit % (1 << 16);
            if unit < 1 << 15 {
                unit
            } else {
                unit + 0xffff_0000
            }
        }
        LoadOp::Lw | LoadOp::Lbu | LoadOp::Lhu => unit,
    }
}

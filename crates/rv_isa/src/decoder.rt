//! From words to instructions.

ghost use Rattle.std.specs.Prelude.{◌≡◌, IfSome};
ghost use Rattle.rv_isa.specs.Fields.{opcode, funct3, funct7};
ghost use Rattle.rv_isa.specs.Table.{instruction_of, InRange};

use crate::fields::{b_imm, funct3, funct7, i_imm, j_imm, opcode, rd, rs1, rs2, s_imm, u_imm};
use crate::instr::{BranchOp, ImmediateOp, Instr, LoadOp, RegisterOp, ShiftOp, StoreOp, UpperOp};

/// The instruction that a word is, or None where no row of the table has it.
pub fn decode(word: u32) -> Option<Instr>
    ensures is_table { result ≡ instruction_of word }
    ensures in_range { IfSome result InRange }
{
    match opcode(word) {
        0x37 => Some(Instr::Upper {
            op: UpperOp::Lui,
            rd: rd(word),
            imm: u_imm(word),
        }),
        0x17 => Some(Instr::Upper {
            op: UpperOp::Auipc,
            rd: rd(word),
            imm: u_imm(word),
        }),
        0x6f => Some(Instr::Jal {
            rd: rd(word),
            imm: j_imm(word),
        }),
        0x67 => jalr(word),
        0x63 => branch(word),
        0x03 => load(word),
        0x23 => store(word),
        0x13 => immediate(word),
        0x33 => register(word),
        0x0f => fence(word),
        0x73 => system(word),
        _ => None,
    }
}

#[inline(always)]
fn jalr(word: u32) -> Option<Instr>
    requires { opcode word ≡ 0x67 }
    ensures is_table { result ≡ instruction_of word }
    ensures in_range { IfSome result InRange }
{
    match funct3(word) {
        0 => Some(Instr::Jalr {
            rd: rd(word),
            rs1: rs1(word),
            imm: i_imm(word),
        }),
        _ => None,
    }
}

#[inline(always)]
fn branch(word: u32) -> Option<Instr>
    requires { opcode word ≡ 0x63 }
    ensures is_table { result ≡ instruction_of word }
    ensures in_range { IfSome result InRange }
{
    let op = match funct3(word) {
        0 => BranchOp::Beq,
        1 => BranchOp::Bne,
        4 => BranchOp::Blt,
        5 => BranchOp::Bge,
        6 => BranchOp::Bltu,
        7 => BranchOp::Bgeu,
        _ => return None,
    };
    Some(Instr::Branch {
        op,
        rs1: rs1(word),
        rs2: rs2(word),
        imm: b_imm(word),
    })
}

#[inline(always)]
fn load(word: u32) -> Option<Instr>
    requires { opcode word ≡ 0x03 }
    ensures is_table { result ≡ instruction_of word }
    ensures in_range { IfSome result InRange }
{
    let op = match funct3(word) {
        0 => LoadOp::Lb,
        1 => LoadOp::Lh,
        2 => LoadOp::Lw,
        4 => LoadOp::Lbu,
        5 => LoadOp::Lhu,
        _ => return None,
    };
    Some(Instr::Load {
        op,
        rd: rd(word),
        rs1: rs1(word),
        imm: i_imm(word),
    })
}

#[inline(always)]
fn store(word: u32) -> Option<Instr>
    requires { opcode word ≡ 0x23 }
    ensures is_table { result ≡ instruction_of word }
    ensures in_range { IfSome result InRange }
{
    let op = match funct3(word) {
        0 => StoreOp::Sb,
        1 => StoreOp::Sh,
        2 => StoreOp::Sw,
        _ => return None,
    };
    Some(Instr::Store {
        op,
        rs1: rs1(word),
        rs2: rs2(word),
        imm: s_imm(word),
    })
}

#[inline(always)]
fn immediate(word: u32) -> Option<Instr>
    requires { opcode word ≡ 0x13 }
    ensures is_table { result ≡ instruction_of word }
    ensures in_range { IfSome result InRange }
{
    let op = match funct3(word) {
        0 => ImmediateOp::Addi,
        1 => return shift_left(word),
        2 => ImmediateOp::Slti,
        3 => ImmediateOp::Sltiu,
        4 => ImmediateOp::Xori,
        5 => return shift_right(word),
        6 => ImmediateOp::Ori,
        7 => ImmediateOp::Andi,
        _ => return None,
    };
    Some(Instr::Immediate {
        op,
        rd: rd(word),
        rs1: rs1(word),
        imm: i_imm(word),
    })
}

#[inline(always)]
fn shift_left(word: u32) -> Option<Instr>
    requires opcode { opcode word ≡ 0x13 }
    requires funct3 { funct3 word ≡ 1 }
    ensures is_table { result ≡ instruction_of word }
    ensures in_range { IfSome result InRange }
{
    match funct7(word) {
        0x00 => Some(Instr::Shift {
            op: ShiftOp::Slli,
            rd: rd(word),
            rs1: rs1(word),
            amount: rs2(word),
        }),
        _ => None,
    }
}

#[inline(always)]
fn shift_right(word: u32) -> Option<Instr>
    requires opcode { opcode word ≡ 0x13 }
    requires funct3 { funct3 word ≡ 5 }
    ensures is_table { result ≡ instruction_of word }
    ensures in_range { IfSome result InRange }
{
    let op = match funct7(word) {
        0x00 => ShiftOp::Srli,
        0x20 => ShiftOp::Srai,
        _ => return None,
    };
    Some(Instr::Shift {
        op,
        rd: rd(word),
        rs1: rs1(word),
        amount: rs2(word),
    })
}

#[inline(always)]
fn register(word: u32) -> Option<Instr>
    requires { opcode word ≡ 0x33 }
    ensures is_table { result ≡ instruction_of word }
    ensures in_range { IfSome result InRange }
{
    match funct7(word) {
        0x00 => base(word),
        0x20 => base_other(word),
        0x01 => multiply(word),
        _ => None,
    }
}

#[inline(always)]
fn base(word: u32) -> Option<Instr>
    requires opcode { opcode word ≡ 0x33 }
    requires funct7 { funct7 word ≡ 0x00 }
    ensures is_table { result ≡ instruction_of word }
    ensures in_range { IfSome result InRange }
{
    let op = match funct3(word) {
        0 => RegisterOp::Add,
        1 => RegisterOp::Sll,
        2 => RegisterOp::Slt,
        3 => RegisterOp::Sltu,
        4 => RegisterOp::Xor,
        5 => RegisterOp::Srl,
        6 => RegisterOp::Or,
        7 => RegisterOp::And,
        _ => return None,
    };
    Some(Instr::Register {
        op,
        rd: rd(word),
        rs1: rs1(word),
        rs2: rs2(word),
    })
}

#[inline(always)]
fn base_other(word: u32) -> Option<Instr>
    requires opcode { opcode word ≡ 0x33 }
    requires funct7 { funct7 word ≡ 0x20 }
    ensures is_table { result ≡ instruction_of word }
    ensures in_range { IfSome result InRange }
{
    let op = match funct3(word) {
        0 => RegisterOp::Sub,
        5 => RegisterOp::Sra,
        _ => return None,
    };
    Some(Instr::Register {
        op,
        rd: rd(word),
        rs1: rs1(word),
        rs2: rs2(word),
    })
}

#[inline(always)]
fn multiply(word: u32) -> Option<Instr>
    requires opcode { opcode word ≡ 0x33 }
    requires funct7 { funct7 word ≡ 0x01 }
    ensures is_table { result ≡ instruction_of word }
    ensures in_range { IfSome result InRange }
{
    let op = match funct3(word) {
        0 => RegisterOp::Mul,
        1 => RegisterOp::Mulh,
        2 => RegisterOp::Mulhsu,
        3 => RegisterOp::Mulhu,
        4 => RegisterOp::Div,
        5 => RegisterOp::Divu,
        6 => RegisterOp::Rem,
        7 => RegisterOp::Remu,
        _ => return None,
    };
    Some(Instr::Register {
        op,
        rd: rd(word),
        rs1: rs1(word),
        rs2: rs2(word),
    })
}

#[inline(always)]
fn fence(word: u32) -> Option<Instr>
    requires { opcode word ≡ 0x0f }
    ensures is_table { result ≡ instruction_of word }
    ensures in_range { IfSome result InRange }
{
    match funct3(word) {
        0 => Some(Instr::Fence {
            rd: rd(word),
            rs1: rs1(word),
            imm: i_imm(word),
        }),
        _ => None,
    }
}

#[inline(always)]
fn system(word: u32) -> Option<Instr>
    requires { opcode word ≡ 0x73 }
    ensures is_table { result ≡ instruction_of word }
    ensures in_range { IfSome result InRange }
{
    match word {
        0x0000_0073 => Some(Instr::Ecall),
        0x0010_0073 => Some(Instr::Ebreak),
        _ => None,
    }
}

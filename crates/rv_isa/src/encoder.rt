//! From instructions to words.

ghost use Rattle.std.specs.Prelude.{◌≡◌, ℕ, ◌*◌, ◌^◌, ◌<◌, ◌≤◌, Some, pos, ◌≤ℤ◌, ◌<ℤ◌, negsuc, ◌-◌};
ghost use Rattle.rv_isa.specs.Table.{instruction_of, InRange, IsSigned};
ghost use Rattle.rv_isa.specs.Parts.{HasParts, Names, Fit, pattern, r_parts, i_parts, s_parts, b_parts, u_parts, j_parts};

use crate::instr::{BranchOp, ImmediateOp, Instr, LoadOp, RegisterOp, ShiftOp, StoreOp, UpperOp};

/// What a word is put together of, from its low bits up. Where a format has no such field, the part holds bits of
/// the immediate.
#[derive(Clone, Copy, Debug, Drop)]
struct Parts {
    opcode: u32,
    rd: u32,
    funct3: u32,
    rs1: u32,
    rs2: u32,
    funct7: u32,
}

/// The word of an instruction.
pub fn encode(i: Instr) -> u32
    requires { InRange i }
    ensures round { instruction_of result ≡ Some i }
    // no other word is this instruction
    ensures only { (word : ℕ) → word < 2 ^ 32 → instruction_of word ≡ Some i → result ≡ word }
{
    join(split(i))
}

fn join(parts: Parts) -> u32
    requires { Fit parts }
    ensures has { HasParts result parts }
    ensures only { (word : ℕ) → word < 2 ^ 32 → HasParts word parts → result ≡ word }
{
    parts.opcode
        + parts.rd * (1 << 7)
        + parts.funct3 * (1 << 12)
        + parts.rs1 * (1 << 15)
        + parts.rs2 * (1 << 20)
        + parts.funct7 * (1 << 25)
}

fn split(i: Instr) -> Parts
    requires { InRange i }
    ensures names { Names result i }
    ensures fit { Fit result }
{
    match i {
        Instr::Upper { op, rd, imm } => upper(op, rd, imm),
        Instr::Jal { rd, imm } => jal(rd, imm),
        Instr::Jalr { rd, rs1, imm } => jalr(rd, rs1, imm),
        Instr::Branch { op, rs1, rs2, imm } => branch(op, rs1, rs2, imm),
        Instr::Load { op, rd, rs1, imm } => load(op, rd, rs1, imm),
        Instr::Store { op, rs1, rs2, imm } => store(op, rs1, rs2, imm),
        Instr::Immediate { op, rd, rs1, imm } => immediate(op, rd, rs1, imm),
        Instr::Shift {
            op,
            rd,
            rs1,
            amount,
        } => shift(op, rd, rs1, amount),
        Instr::Register { op, rd, rs1, rs2 } => register(op, rd, rs1, rs2),
        Instr::Fence { rd, rs1, imm } => fence(rd, rs1, imm),
        Instr::Ecall => system(0),
        Instr::Ebreak => system(1),
    }
}

/// The bits of a number in two's complement, where `half` is what the highest bit is worth.
fn pattern(half: u32, imm: i32) -> u32
    requires narrow { half ≤ 2 ^ 20 }
    requires some { 1 ≤ half }
    requires low { negsuc (half - 1) ≤ℤ imm }
    requires high { imm <ℤ pos half }
    ensures value { result ≡ pattern (2 * half) imm }
    ensures fits { result < 2 * half }
{
    if imm < 0 {
        (imm + 2 * half as i32) as u32
    } else {
        imm as u32
    }
}

fn i_format(opcode: u32, funct3: u32, rd: u8, rs1: u8, imm: i32) -> Parts
    requires { IsSigned 12 imm }
    ensures { result ≡ i_parts opcode funct3 rd rs1 (pattern 4096 imm) }
{
    let imm = pattern(2048, imm);
    Parts {
        opcode,
        rd: rd as u32,
        funct3,
        rs1: rs1 as u32,
        rs2: imm % 32,
        funct7: imm / 32,
    }
}

fn upper(op: UpperOp, rd: u8, imm: u32) -> Parts
    requires { InRange (Instr.Upper op rd imm) }
    ensures names { Names result (Instr.Upper op rd imm) }
    ensures fit { Fit result }
{
    let opcode = match op {
        UpperOp::Lui => 0x37,
        UpperOp::Auipc => 0x17,
    };
    Parts {
        opcode,
        rd: rd as u32,
        funct3: imm % 8,
        rs1: imm / 8 % 32,
        rs2: imm / 256 % 32,
        funct7: imm / 8192,
    }
}

fn jal(rd: u8, imm: i32) -> Parts
    requires { InRange (Instr.Jal rd imm) }
    ensures names { Names result (Instr.Jal rd imm) }
    ensures fit { Fit result }
{
    let imm = pattern(1 << 20, imm);
    Parts {
        opcode: 0x6f,
        rd: rd as u32,
        funct3: imm / 4096 % 8,
        rs1: imm / 32768 % 32,
        rs2: imm / 2 % 16 * 2 + imm / 2048 % 2,
        funct7: imm / 1_048_576 * 64 + imm / 32 % 64,
    }
}

fn jalr(rd: u8, rs1: u8, imm: i32) -> Parts
    requires { InRange (Instr.Jalr rd rs1 imm) }
    ensures names { Names result (Instr.Jalr rd rs1 imm) }
    ensures fit { Fit result }
{
    i_format(0x67, 0, rd, rs1, imm)
}

fn branch(op: BranchOp, rs1: u8, rs2: u8, imm: i32) -> Parts
    requires { InRange (Instr.Branch op rs1 rs2 imm) }
    ensures names { Names result (Instr.Branch op rs1 rs2 imm) }
    ensures fit { Fit result }
{
    let funct3 = match op {
        BranchOp::Beq => 0,
        BranchOp::Bne => 1,
        BranchOp::Blt => 4,
        BranchOp::Bge => 5,
        BranchOp::Bltu => 6,
        BranchOp::Bgeu => 7,
    };
    let imm = pattern(4096, imm);
    Parts {
        opcode: 0x63,
        rd: imm / 2 % 16 * 2 + imm / 2048 % 2,
        funct3,
        rs1: rs1 as u32,
        rs2: rs2 as u32,
        funct7: imm / 4096 * 64 + imm / 32 % 64,
    }
}

fn load(op: LoadOp, rd: u8, rs1: u8, imm: i32) -> Parts
    requires { InRange (Instr.Load op rd rs1 imm) }
    ensures names { Names result (Instr.Load op rd rs1 imm) }
    ensures fit { Fit result }
{
    let funct3 = match op {
        LoadOp::Lb => 0,
        LoadOp::Lh => 1,
        LoadOp::Lw => 2,
        LoadOp::Lbu => 4,
        LoadOp::Lhu => 5,
    };
    i_format(0x03, funct3, rd, rs1, imm)
}

fn store(op: StoreOp, rs1: u8, rs2: u8, imm: i32) -> Parts
    requires { InRange (Instr.Store op rs1 rs2 imm) }
    ensures names { Names result (Instr.Store op rs1 rs2 imm) }
    ensures fit { Fit result }
{
    let funct3 = match op {
        StoreOp::Sb => 0,
        StoreOp::Sh => 1,
        StoreOp::Sw => 2,
    };
    let imm = pattern(2048, imm);
    Parts {
        opcode: 0x23,
        rd: imm % 32,
        funct3,
        rs1: rs1 as u32,
        rs2: rs2 as u32,
        funct7: imm / 32,
    }
}

fn immediate(op: ImmediateOp, rd: u8, rs1: u8, imm: i32) -> Parts
    requires { InRange (Instr.Immediate op rd rs1 imm) }
    ensures names { Names result (Instr.Immediate op rd rs1 imm) }
    ensures fit { Fit result }
{
    let funct3 = match op {
        ImmediateOp::Addi => 0,
        ImmediateOp::Slti => 2,
        ImmediateOp::Sltiu => 3,
        ImmediateOp::Xori => 4,
        ImmediateOp::Ori => 6,
        ImmediateOp::Andi => 7,
    };
    i_format(0x13, funct3, rd, rs1, imm)
}

fn shift(op: ShiftOp, rd: u8, rs1: u8, amount: u8) -> Parts
    requires { InRange (Instr.Shift op rd rs1 amount) }
    ensures names { Names result (Instr.Shift op rd rs1 amount) }
    ensures fit { Fit result }
{
    let (funct3, funct7) = match op {
        ShiftOp::Slli => (1, 0x00),
        ShiftOp::Srli => (5, 0x00),
        ShiftOp::Srai => (5, 0x20),
    };
    Parts {
        opcode: 0x13,
        rd: rd as u32,
        funct3,
        rs1: rs1 as u32,
        rs2: amount as u32,
        funct7,
    }
}

fn register(op: RegisterOp, rd: u8, rs1: u8, rs2: u8) -> Parts
    requires { InRange (Instr.Register op rd rs1 rs2) }
    ensures names { Names result (Instr.Register op rd rs1 rs2) }
    ensures fit { Fit result }
{
    let (funct3, funct7) = match op {
        RegisterOp::Add => (0, 0x00),
        RegisterOp::Sub => (0, 0x20),
        RegisterOp::Sll => (1, 0x00),
        RegisterOp::Slt => (2, 0x00),
        RegisterOp::Sltu => (3, 0x00),
        RegisterOp::Xor => (4, 0x00),
        RegisterOp::Srl => (5, 0x00),
        RegisterOp::Sra => (5, 0x20),
        RegisterOp::Or => (6, 0x00),
        RegisterOp::And => (7, 0x00),
        RegisterOp::Mul => (0, 0x01),
        RegisterOp::Mulh => (1, 0x01),
        RegisterOp::Mulhsu => (2, 0x01),
        RegisterOp::Mulhu => (3, 0x01),
        RegisterOp::Div => (4, 0x01),
        RegisterOp::Divu => (5, 0x01),
        RegisterOp::Rem => (6, 0x01),
        RegisterOp::Remu => (7, 0x01),
    };
    Parts {
        opcode: 0x33,
        rd: rd as u32,
        funct3,
        rs1: rs1 as u32,
        rs2: rs2 as u32,
        funct7,
    }
}

fn fence(rd: u8, rs1: u8, imm: i32) -> Parts
    requires { InRange (Instr.Fence rd rs1 imm) }
    ensures names { Names result (Instr.Fence rd rs1 imm) }
    ensures fit { Fit result }
{
    i_format(0x0f, 0, rd, rs1, imm)
}

/// ECALL and EBREAK, which differ in one bit.
fn system(rs2: u32) -> Parts
    requires { rs2 < 2 }
    ensures ecall { rs2 ≡ 0 → Names result Instr.Ecall }
    ensures ebreak { rs2 ≡ 1 → Names result Instr.Ebreak }
    ensures fit { Fit result }
{
    Parts {
        opcode: 0x73,
        rd: 0,
        funct3: 0,
        rs1: 0,
        rs2,
        funct7: 0,
    }
}

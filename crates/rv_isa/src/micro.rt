//! Instructions in the form in which they are run.

ghost use Rattle.std.specs.Prelude.{◌≡◌, ◌<◌, ◌≤◌, IfOk, All};
ghost use Rattle.rv_isa.specs.Table.{instruction_of, InRange};
ghost use Rattle.rv_isa.specs.Micro.{slot, of_register, of_immediate, of_shift, of_branch, of_load, of_store, other, micro_of, or_break, micros_of, IsNumbered};

use crate::decoder::decode;
use crate::instr::{BranchOp, ImmediateOp, Instr, LoadOp, RegisterOp, ShiftOp, StoreOp, UpperOp};
use al_base::NoMemory;
use al_items::Items;
use std::alloc::Global;

/// The operations of a run. Those with an immediate are the ones on registers, since the second operand is the sum of a
/// register and the immediate.
#[derive(Clone, Copy, Debug, Drop, PartialEq, Eq)]
pub enum MicroOp {
    Add,
    Sub,
    Sll,
    Slt,
    Sltu,
    Xor,
    Srl,
    Sra,
    Or,
    And,
    Mul,
    Mulh,
    Mulhsu,
    Mulhu,
    Div,
    Divu,
    Rem,
    Remu,
    Beq,
    Bne,
    Blt,
    Bge,
    Bltu,
    Bgeu,
    Jal,
    Jalr,
    /// A word of the private stack.
    LoadStack,
    StoreStack,
    /// A word of the private globals.
    LoadGlobals,
    StoreGlobals,
    /// What a run leaves to the step by the table: calls, shared accesses and what is rare.
    Other,
}

/// A micro-operation: eight bytes for a word of code. Slot 32 is read in place of register 0.
#[derive(Clone, Copy, Debug, Drop, PartialEq, Eq)]
pub struct Micro {
    pub op: MicroOp,
    pub rd: u8,
    pub rs1: u8,
    pub rs2: u8,
    pub imm: u32,
}

/// The slot that is read for a register.
fn slot(number: u8) -> u8
    requires { number < 32 }
    ensures slot { result ≡ slot number }
    ensures most { result ≤ 32 }
{
    if number == 0 { 32 } else { number }
}

fn of_register(op: RegisterOp) -> MicroOp
    ensures { result ≡ of_register op }
{
    match op {
        RegisterOp::Add => MicroOp::Add,
        RegisterOp::Sub => MicroOp::Sub,
        RegisterOp::Sll => MicroOp::Sll,
        RegisterOp::Slt => MicroOp::Slt,
        RegisterOp::Sltu => MicroOp::Sltu,
        RegisterOp::Xor => MicroOp::Xor,
        RegisterOp::Srl => MicroOp::Srl,
        RegisterOp::Sra => MicroOp::Sra,
        RegisterOp::Or => MicroOp::Or,
        RegisterOp::And => MicroOp::And,
        RegisterOp::Mul => MicroOp::Mul,
        RegisterOp::Mulh => MicroOp::Mulh,
        RegisterOp::Mulhsu => MicroOp::Mulhsu,
        RegisterOp::Mulhu => MicroOp::Mulhu,
        RegisterOp::Div => MicroOp::Div,
        RegisterOp::Divu => MicroOp::Divu,
        RegisterOp::Rem => MicroOp::Rem,
        RegisterOp::Remu => MicroOp::Remu,
    }
}

fn of_immediate(op: ImmediateOp) -> MicroOp
    ensures { result ≡ of_immediate op }
{
    match op {
        ImmediateOp::Addi => MicroOp::Add,
        ImmediateOp::Slti => MicroOp::Slt,
        ImmediateOp::Sltiu => MicroOp::Sltu,
        ImmediateOp::Xori => MicroOp::Xor,
        ImmediateOp::Ori => MicroOp::Or,
        ImmediateOp::Andi => MicroOp::And,
    }
}

fn of_shift(op: ShiftOp) -> MicroOp
    ensures { result ≡ of_shift op }
{
    match op {
        ShiftOp::Slli => MicroOp::Sll,
        ShiftOp::Srli => MicroOp::Srl,
        ShiftOp::Srai => MicroOp::Sra,
    }
}

fn of_branch(op: BranchOp) -> MicroOp
    ensures { result ≡ of_branch op }
{
    match op {
        BranchOp::Beq => MicroOp::Beq,
        BranchOp::Bne => MicroOp::Bne,
        BranchOp::Blt => MicroOp::Blt,
        BranchOp::Bge => MicroOp::Bge,
        BranchOp::Bltu => MicroOp::Bltu,
        BranchOp::Bgeu => MicroOp::Bgeu,
    }
}

fn of_load(op: LoadOp, rs1: u8) -> MicroOp
    ensures { result ≡ of_load op rs1 }
{
    match op {
        LoadOp::Lw => {
            if rs1 == 2 || rs1 == 8 {
                MicroOp::LoadStack
            } else if rs1 == 4 {
                MicroOp::LoadGlobals
            } else {
                MicroOp::Other
            }
        }
        LoadOp::Lb | LoadOp::Lh | LoadOp::Lbu | LoadOp::Lhu => MicroOp::Other,
    }
}

fn of_store(op: StoreOp, rs1: u8) -> MicroOp
    ensures { result ≡ of_store op rs1 }
{
    match op {
        StoreOp::Sw => {
            if rs1 == 2 || rs1 == 8 {
                MicroOp::StoreStack
            } else if rs1 == 4 {
                MicroOp::StoreGlobals
            } else {
                MicroOp::Other
            }
        }
        StoreOp::Sb | StoreOp::Sh => MicroOp::Other,
    }
}

fn other() -> Micro
    ensures other { result ≡ other }
    ensures numbered { IsNumbered result }
{
    Micro {
        op: MicroOp::Other,
        rd: 0,
        rs1: 32,
        rs2: 32,
        imm: 0,
    }
}

/// The micro-operation of an instruction.
fn micro_of(instr: Instr) -> Micro
    requires { InRange instr }
    ensures micro { result ≡ micro_of instr }
    ensures numbered { IsNumbered result }
{
    match instr {
        Instr::Upper { op, rd, imm } => match op {
            UpperOp::Lui => Micro {
                op: MicroOp::Add,
                rd,
                rs1: 32,
                rs2: 32,
                imm: imm << 12,
            },
            UpperOp::Auipc => other(),
        },
        Instr::Jal { rd, imm } => Micro {
            op: MicroOp::Jal,
            rd,
            rs1: 32,
            rs2: 32,
            imm: imm.cast_unsigned(),
        },
        Instr::Jalr { rd, rs1, imm } => Micro {
            op: MicroOp::Jalr,
            rd,
            rs1: slot(rs1),
            rs2: 32,
            imm: imm.cast_unsigned(),
        },
        Instr::Branch { op, rs1, rs2, imm } => Micro {
            op: of_branch(op),
            rd: 0,
            rs1: slot(rs1),
            rs2: slot(rs2),
            imm: imm.cast_unsigned(),
        },
        Instr::Load { op, rd, rs1, imm } => Micro {
            op: of_load(op, rs1),
            rd,
            rs1: slot(rs1),
            rs2: 32,
            imm: imm.cast_unsigned(),
        },
        Instr::Store { op, rs1, rs2, imm } => Micro {
            op: of_store(op, rs1),
            rd: 0,
            rs1: slot(rs1),
            rs2: slot(rs2),
            imm: imm.cast_unsigned(),
        },
        Instr::Immediate { op, rd, rs1, imm } => Micro {
            op: of_immediate(op),
            rd,
            rs1: slot(rs1),
            rs2: 32,
            imm: imm.cast_unsigned(),
        },
        Instr::Shift {
            op,
            rd,
            rs1,
            amount,
        } => Micro {
            op: of_shift(op),
            rd,
            rs1: slot(rs1),
            rs2: 32,
            imm: amount as u32,
        },
        Instr::Register { op, rd, rs1, rs2 } => Micro {
            op: of_register(op),
            rd,
            rs1: slot(rs1),
            rs2: slot(rs2),
            imm: 0,
        },
        Instr::Fence { .. } | Instr::Ecall | Instr::Ebreak => other(),
    }
}

/// The micro-operation of a word.
fn micro_at(word: u32) -> Micro
    ensures micro { result ≡ micro_of (or_break (instruction_of word)) }
    ensures numbered { IsNumbered result }
{
    match decode(word) {
        Some(instr) => micro_of(instr),
        None => other(),
    }
}

/// The micro-operations of a code, one for each word.
pub fn micros_of(alloc: Global, code: &[u32]) -> Result<Items<Micro>, NoMemory>
    ensures all { IfOk result (λ micros. micros ≡ micros_of code.now) }
    ensures numbered { IfOk result (λ micros. All IsNumbered micros) }
{
    let mut micros = Items::with_capacity(alloc, code.len())?;
    for word in code {
        micros.push(micro_at(*word))?;
    }
    Ok(micros)
}

//! Words shown as text.

use al_base::NoMemory;
use rv_isa::addresses::CODE_START;
use rv_isa::decode;
use rv_isa::instr::{BranchOp, ImmediateOp, Instr, LoadOp, RegisterOp, ShiftOp, StoreOp, UpperOp};
use std::alloc::Global;

/// A line for each word: its address and the word, as eight hexadecimal digits each, the instruction's name and its
/// operands. A word that is no instruction has the name `word`.
pub fn listing(alloc: Global, words: &[u32]) -> Result<Vec<u8>, NoMemory> {
    let mut text = Vec::new(alloc);
    let mut address = CODE_START;
    for word in words {
        push_line(alloc, &mut text, address, *word)?;
        address = address.wrapping_add(4);
    }
    Ok(text)
}

fn push_line(alloc: Global, text: &mut Vec<u8>, address: u32, word: u32) -> Result<(), NoMemory> {
    let start = format!(in alloc; "{address:08x} {word:08x} ")?;
    text.extend_from_slice(start.as_bytes())?;
    match decode(word) {
        Some(i) => push_instruction(alloc, text, i)?,
        None => text.extend_from_slice(b"word")?,
    }
    text.push(b'\n')?;
    Ok(())
}

fn push_instruction(alloc: Global, text: &mut Vec<u8>, i: Instr) -> Result<(), NoMemory> {
    let line = match i {
        Instr::Upper { op, rd, imm } => format!(in alloc; "{} x{rd}, {imm:#x}", upper_name(op))?,
        Instr::Jal { rd, imm } => format!(in alloc; "jal x{rd}, {imm}")?,
        Instr::Jalr { rd, rs1, imm } => format!(in alloc; "jalr x{rd}, x{rs1}, {imm}")?,
        Instr::Branch { op, rs1, rs2, imm } => format!(in alloc;
            "{} x{rs1}, x{rs2}, {imm}",
            branch_name(op)
        )?,
        Instr::Load { op, rd, rs1, imm } => format!(in alloc;
            "{} x{rd}, {imm}(x{rs1})",
            load_name(op)
        )?,
        Instr::Store { op, rs1, rs2, imm } => format!(in alloc;
            "{} x{rs2}, {imm}(x{rs1})",
            store_name(op)
        )?,
        Instr::Immediate { op, rd, rs1, imm } => format!(in alloc;
            "{} x{rd}, x{rs1}, {imm}",
            immediate_name(op)
        )?,
        Instr::Shift {
            op,
            rd,
            rs1,
            amount,
        } => format!(in alloc; "{} x{rd}, x{rs1}, {amount}", shift_name(op))?,
        Instr::Register { op, rd, rs1, rs2 } => format!(in alloc;
            "{} x{rd}, x{rs1}, x{rs2}",
            register_name(op)
        )?,
        Instr::Fence { .. } => format!(in alloc; "fence")?,
        Instr::Ecall => format!(in alloc; "ecall")?,
        Instr::Ebreak => format!(in alloc; "ebreak")?,
    };
    text.extend_from_slice(line.as_bytes())?;
    Ok(())
}

fn upper_name(op: UpperOp) -> &'static str {
    match op {
        UpperOp::Lui => "lui",
        UpperOp::Auipc => "auipc",
    }
}

fn branch_name(op: BranchOp) -> &'static str {
    match op {
        BranchOp::Beq => "beq",
        BranchOp::Bne => "bne",
        BranchOp::Blt => "blt",
        BranchOp::Bge => "bge",
        BranchOp::Bltu => "bltu",
        BranchOp::Bgeu => "bgeu",
    }
}

fn load_name(op: LoadOp) -> &'static str {
    match op {
        LoadOp::Lb => "lb",
        LoadOp::Lh => "lh",
        LoadOp::Lw => "lw",
        LoadOp::Lbu => "lbu",
        LoadOp::Lhu => "lhu",
    }
}

fn store_name(op: StoreOp) -> &'static str {
    match op {
        StoreOp::Sb => "sb",
        StoreOp::Sh => "sh",
        StoreOp::Sw => "sw",
    }
}

fn immediate_name(op: ImmediateOp) -> &'static str {
    match op {
        ImmediateOp::Addi => "addi",
        ImmediateOp::Slti => "slti",
        ImmediateOp::Sltiu => "sltiu",
        ImmediateOp::Xori => "xori",
        ImmediateOp::Ori => "ori",
        ImmediateOp::Andi => "andi",
    }
}

fn shift_name(op: ShiftOp) -> &'static str {
    match op {
        ShiftOp::Slli => "slli",
        ShiftOp::Srli => "srli",
        ShiftOp::Srai => "srai",
    }
}

fn register_name(op: RegisterOp) -> &'static str {
    match op {
        RegisterOp::Add => "add",
        RegisterOp::Sub => "sub",
        RegisterOp::Sll => "sll",
        RegisterOp::Slt => "slt",
        RegisterOp::Sltu => "sltu",
        RegisterOp::Xor => "xor",
        RegisterOp::Srl => "srl",
        RegisterOp::Sra => "sra",
        RegisterOp::Or => "or",
        RegisterOp::And => "and",
        RegisterOp::Mul => "mul",
        RegisterOp::Mulh => "mulh",
        RegisterOp::Mulhsu => "mulhsu",
        RegisterOp::Mulhu => "mulhu",
        RegisterOp::Div => "div",
        RegisterOp::Divu => "divu",
        RegisterOp::Rem => "rem",
        RegisterOp::Remu => "remu",
    }
}

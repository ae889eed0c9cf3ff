//! The instructions of RV32I with the M extension, grouped by what they do.
//!
//! Their names are those of the RISC-V unprivileged specification. The table of their words is `table` in
//! `specs/Table.antt`.

/// An instruction with its operands.
///
/// `rd`, `rs1` and `rs2` are register numbers below 32. Where an immediate has 12 bits it is from -2,048 to 2,047.
/// `InRange` in `specs/Table.antt` states the ranges.
#[derive(Clone, Copy, Debug, Drop, PartialEq, Eq)]
pub enum Instr {
    /// LUI and AUIPC. `imm` is bits 31 to 12 of the value, a number below 2^20.
    Upper {
        op: UpperOp,
        rd: u8,
        imm: u32,
    },
    /// JAL. `imm` is the distance in bytes to the target, even, from -2^20 to 2^20 - 2.
    Jal {
        rd: u8,
        imm: i32,
    },
    /// JALR, to the address `rs1 + imm` with its bit 0 cleared. `imm` has 12 bits.
    Jalr {
        rd: u8,
        rs1: u8,
        imm: i32,
    },
    /// A conditional branch. `imm` is the distance in bytes to the target, even, from -4,096 to 4,094.
    Branch {
        op: BranchOp,
        rs1: u8,
        rs2: u8,
        imm: i32,
    },
    /// A load into `rd` from the address `rs1 + imm`. `imm` has 12 bits.
    Load {
        op: LoadOp,
        rd: u8,
        rs1: u8,
        imm: i32,
    },
    /// A store of `rs2` to the address `rs1 + imm`. `imm` has 12 bits.
    Store {
        op: StoreOp,
        rs1: u8,
        rs2: u8,
        imm: i32,
    },
    /// An operation on a register and an immediate of 12 bits.
    Immediate {
        op: ImmediateOp,
        rd: u8,
        rs1: u8,
        imm: i32,
    },
    /// A shift by a constant amount, below 32.
    Shift {
        op: ShiftOp,
        rd: u8,
        rs1: u8,
        amount: u8,
    },
    /// An operation on two registers.
    Register {
        op: RegisterOp,
        rd: u8,
        rs1: u8,
        rs2: u8,
    },
    /// FENCE. Its fields are kept and mean nothing here; `imm`, of 12 bits, has the mode and the sets of accesses.
    Fence {
        rd: u8,
        rs1: u8,
        imm: i32,
    },
    /// ECALL.
    Ecall,
    /// EBREAK.
    Ebreak,
}

/// Instructions with the immediate of 20 high bits.
#[derive(Clone, Copy, Debug, Drop, PartialEq, Eq)]
pub enum UpperOp {
    Lui,
    Auipc,
}

/// Conditions of branches.
#[derive(Clone, Copy, Debug, Drop, PartialEq, Eq)]
pub enum BranchOp {
    Beq,
    Bne,
    Blt,
    Bge,
    Bltu,
    Bgeu,
}

/// Loads, by size and by how the value is extended.
#[derive(Clone, Copy, Debug, Drop, PartialEq, Eq)]
pub enum LoadOp {
    Lb,
    Lh,
    Lw,
    Lbu,
    Lhu,
}

/// Stores, by size.
#[derive(Clone, Copy, Debug, Drop, PartialEq, Eq)]
pub enum StoreOp {
    Sb,
    Sh,
    Sw,
}

/// Operations with an immediate of 12 bits.
#[derive(Clone, Copy, Debug, Drop, PartialEq, Eq)]
pub enum ImmediateOp {
    Addi,
    Slti,
    Sltiu,
    Xori,
    Ori,
    Andi,
}

/// Shifts by a constant amount.
#[derive(Clone, Copy, Debug, Drop, PartialEq, Eq)]
pub enum ShiftOp {
    Slli,
    Srli,
    Srai,
}

/// Operations on two registers, those of the M extension among them.
#[derive(Clone, Copy, Debug, Drop, PartialEq, Eq)]
pub enum RegisterOp {
    Add,
    Sub,
    Sll,
    Slt,
    Sltu,
    Xor,
    Srl,
    Sra,
    Or,
    And,
    Mul,
    Mulh,
    Mulhsu,
    Mulhu,
    Div,
    Divu,
    Rem,
    Remu,
}

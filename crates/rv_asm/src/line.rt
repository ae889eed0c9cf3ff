use rv_isa::instr::{BranchOp, Instr};

/// A line of assembly. Labels are numbers. A line with a label stands for an instruction whose immediate leads to the
/// word at which the label stands.
#[derive(Clone, Copy, Debug, Drop)]
pub enum AsmLine {
    /// A label stands at the word of the next line; this line makes no word.
    Label(u32),
    /// An instruction as it is.
    Plain(Instr),
    /// A branch to a label, at most 4,096 bytes away.
    Branch {
        op: BranchOp,
        rs1: u8,
        rs2: u8,
        label: u32,
    },
    /// JAL to a label, at most 2^20 bytes away.
    Jal {
        rd: u8,
        label: u32,
    },
    /// LUI with the high part of a label's address, `%hi(label)`.
    High {
        rd: u8,
        label: u32,
    },
    /// ADDI with the low part of a label's address, `%lo(label)`.
    Low {
        rd: u8,
        rs1: u8,
        label: u32,
    },
    /// JALR by the low part of a label's address, `%lo(label)(rs1)`.
    JumpLow {
        rd: u8,
        rs1: u8,
        label: u32,
    },
}

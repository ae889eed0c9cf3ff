//! The instructions that routines are made of.

ghost use Rattle.std.specs.Prelude.{◌≡◌};
ghost use Rattle.rv_long.specs.Code.{line_of};

use rv_asm::AsmLine;
use rv_isa::instr::{ImmediateOp, Instr, RegisterOp, ShiftOp};

/// An operation on registers: its destination, and then its operands.
#[derive(Clone, Copy, Debug, Drop)]
pub enum Step {
    /// Of two registers.
    Of(RegisterOp, u8, u8, u8),
    /// A shift of a register by a constant amount.
    By(ShiftOp, u8, u8, u8),
    /// Of a register and a constant.
    With(ImmediateOp, u8, u8, i32),
}

impl Step {
    /// The line of assembly.
    pub fn line(self) -> AsmLine
        ensures { result ≡ line_of self }
    {
        AsmLine::Plain(match self {
            Step::Of(op, rd, rs1, rs2) => Instr::Register { op, rd, rs1, rs2 },
            Step::By(op, rd, rs1, amount) => {
                Instr::Shift {
                    op,
                    rd,
                    rs1,
                    amount,
                }
            }
            Step::With(op, rd, rs1, imm) => Instr::Immediate { op, rd, rs1, imm },
        })
    }
}

// Whether an instruction's operands fit the fields of a word.

ghost use Rattle.std.specs.Prelude.{◌≡◌, ◌^◌, ◌<◌, ◌≤◌, IsTrue, pos, ◌≤ℤ◌, ◌<ℤ◌, negsuc};
ghost use Rattle.rv_isa.specs.Table.{InRange, IsSigned, IsEven};

use rv_isa::instr::Instr;

/// Whether a signed number has 12 bits.
fn is_short(imm: i32) -> bool
    ensures { IsTrue result → IsSigned 12 imm }
{
    imm >= -2048 && imm < 2048
}

/// Whether a signed number is even.
fn is_even(imm: i32) -> bool
    ensures { IsTrue result → IsEven imm }
{
    imm % 2 == 0
}

/// Whether a branch reaches so far.
fn is_branch(imm: i32) -> bool
    ensures signed { IsTrue result → IsSigned 13 imm }
    ensures even { IsTrue result → IsEven imm }
{
    imm >= -4096 && imm < 4096 && is_even(imm)
}

/// Whether a jump reaches so far.
fn is_jump(imm: i32) -> bool
    ensures signed { IsTrue result → IsSigned 21 imm }
    ensures even { IsTrue result → IsEven imm }
{
    imm >= -(1 << 20) && imm < 1 << 20 && is_even(imm)
}

/// Whether there is a word for an instruction.
pub fn is_in_range(i: Instr) -> bool
    ensures { IsTrue result → InRange i }
{
    match i {
        Instr::Upper { rd, imm, .. } => rd < 32 && imm < 1 << 20,
        Instr::Jal { rd, imm } => rd < 32 && is_jump(imm),
        Instr::Jalr { rd, rs1, imm } => rd < 32 && rs1 < 32 && is_short(imm),
        Instr::Branch { rs1, rs2, imm, .. } => rs1 < 32 && rs2 < 32 && is_branch(imm),
        Instr::Load { rd, rs1, imm, .. } => rd < 32 && rs1 < 32 && is_short(imm),
        Instr::Store { rs1, rs2, imm, .. } => rs1 < 32 && rs2 < 32 && is_short(imm),
        Instr::Immediate { rd, rs1, imm, .. } => rd < 32 && rs1 < 32 && is_short(imm),
        Instr::Shift {
            rd,
            rs1,
            amount,
            ..
        } => rd < 32 && rs1 < 32 && amount < 32,
        Instr::Register { rd, rs1, rs2, .. } => rd < 32 && rs1 < 32 && rs2 < 32,
        Instr::Fence { rd, rs1, imm } => rd < 32 && rs1 < 32 && is_short(imm),
        Instr::Ecall | Instr::Ebreak => true,
    }
}

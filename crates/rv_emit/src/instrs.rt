//! Single instructions, at the end of the code.

ghost use Rattle.std.specs.Prelude.{◌≡◌, ◌^◌, ◌<◌, [], ◌∷◌, ◌++◌, OnOk};
ghost use Rattle.rv_code.specs.Homes.{low_part, high_part};

use al_base::NoMemory;
use rv_isa::instr::{BranchOp, ImmediateOp, Instr, LoadOp, RegisterOp, ShiftOp, StoreOp, UpperOp};

/// A signed immediate of 12 bits that, with the upper part, makes a word.
pub fn low_part(n: u32) -> i32
    ensures { result ≡ low_part n }
{
    let low = n % 4096;
    if low < 2048 {
        low as i32
    } else {
        low as i32 - 4096
    }
}

/// The upper 20 bits of a word, rounded so that the low part makes the rest.
pub fn high_part(n: u32) -> u32
    ensures { result ≡ high_part n }
{
    ((n as u64 + 2048) / 4096 % (1 << 20)) as u32
}

/// Any instruction.
pub fn add(code: &mut Vec<Instr>, instr: Instr) -> Result<(), NoMemory>
    ensures { OnOk result (code.new.items ≡ code.old.items ++ instr ∷ []) }
{
    code.push(instr)?;
    Ok(())
}

/// LUI with the upper part of a word.
pub fn upper(code: &mut Vec<Instr>, rd: u8, word: u32) -> Result<(), NoMemory>
    ensures { OnOk result (code.new.items ≡ code.old.items ++ Instr.Upper UpperOp.Lui rd (high_part word) ∷ []) }
{
    add(
        code,
        Instr::Upper {
            op: UpperOp::Lui,
            rd,
            imm: high_part(word),
        },
    )
}

/// An operation on a register and an immediate.
pub fn immediate(
    code: &mut Vec<Instr>,
    op: ImmediateOp,
    rd: u8,
    rs1: u8,
    imm: i32,
) -> Result<(), NoMemory>
    ensures { OnOk result (code.new.items ≡ code.old.items ++ Instr.Immediate op rd rs1 imm ∷ []) }
{
    add(code, Instr::Immediate { op, rd, rs1, imm })
}

/// A shift by a constant amount.
pub fn shift(
    code: &mut Vec<Instr>,
    op: ShiftOp,
    rd: u8,
    rs1: u8,
    amount: u8,
) -> Result<(), NoMemory>
    ensures { OnOk result (code.new.items ≡ code.old.items ++ Instr.Shift op rd rs1 amount ∷ []) }
{
    add(
        code,
        Instr::Shift {
            op,
            rd,
            rs1,
            amount,
        },
    )
}

/// An operation on two registers.
pub fn register(
    code: &mut Vec<Instr>,
    op: RegisterOp,
    rd: u8,
    rs1: u8,
    rs2: u8,
) -> Result<(), NoMemory>
    ensures { OnOk result (code.new.items ≡ code.old.items ++ Instr.Register op rd rs1 rs2 ∷ []) }
{
    add(code, Instr::Register { op, rd, rs1, rs2 })
}

/// A conditional branch by so many bytes.
pub fn branch(
    code: &mut Vec<Instr>,
    op: BranchOp,
    rs1: u8,
    rs2: u8,
    imm: i32,
) -> Result<(), NoMemory>
    ensures { OnOk result (code.new.items ≡ code.old.items ++ Instr.Branch op rs1 rs2 imm ∷ []) }
{
    add(code, Instr::Branch { op, rs1, rs2, imm })
}

/// JALR.
pub fn jump_by(code: &mut Vec<Instr>, rd: u8, rs1: u8, imm: i32) -> Result<(), NoMemory>
    ensures { OnOk result (code.new.items ≡ code.old.items ++ Instr.Jalr rd rs1 imm ∷ []) }
{
    add(code, Instr::Jalr { rd, rs1, imm })
}

/// A load.
pub fn load(code: &mut Vec<Instr>, op: LoadOp, rd: u8, rs1: u8, imm: i32) -> Result<(), NoMemory>
    ensures { OnOk result (code.new.items ≡ code.old.items ++ Instr.Load op rd rs1 imm ∷ []) }
{
    add(code, Instr::Load { op, rd, rs1, imm })
}

/// A store.
pub fn store(code: &mut Vec<Instr>, op: StoreOp, rs1: u8, rs2: u8, imm: i32) -> Result<(), NoMemory>
    ensures { OnOk result (code.new.items ≡ code.old.items ++ Instr.Store op rs1 rs2 imm ∷ []) }
{
    add(code, Instr::Store { op, rs1, rs2, imm })
}

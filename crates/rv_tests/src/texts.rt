//! Assembled texts, and listings.

use crate::numbers::words_of;
use al_base::NoMemory;
use rv_asm::{AsmLine, assemble, listing};
use rv_isa::instr::{BranchOp, ImmediateOp, Instr, RegisterOp};
use std::alloc::Global;
use std::process::Abort;

#[test]
fn labels_before_and_behind(rt: HostRuntime) -> Result<(), NoMemory> {
    let lines = [
        AsmLine::Plain(Instr::Immediate {
            op: ImmediateOp::Addi,
            rd: 10,
            rs1: 0,
            imm: 42,
        }),
        AsmLine::Label(7),
        AsmLine::Plain(Instr::Register {
            op: RegisterOp::Add,
            rd: 1,
            rs1: 2,
            rs2: 3,
        }),
        AsmLine::Branch {
            op: BranchOp::Bne,
            rs1: 1,
            rs2: 0,
            label: 7,
        },
        AsmLine::Jal { rd: 0, label: 9 },
        AsmLine::High { rd: 5, label: 9 },
        AsmLine::Low {
            rd: 5,
            rs1: 5,
            label: 9,
        },
        AsmLine::JumpLow {
            rd: 1,
            rs1: 5,
            label: 7,
        },
        AsmLine::Label(9),
        AsmLine::Plain(Instr::Ecall),
    ];
    let words = assemble(rt.alloc(), &lines)?;
    let want = words_of(
        &rt,
        rt.alloc(),
        "2a00513 3100b3 fe009ee3 100006f 4002b7 1c28293 4280e7 73",
    )?;
    assert_eq!(rt; words.as_slice(), want.as_slice());
    Ok(())
}

/// The words and their text.
static LISTED: &str = "\
00400000 003100b3 add x1, x2, x3
00400004 12345537 lui x10, 0x12345
00400008 ffdff06f jal x0, -4
0040000c 7fff0fe7 jalr x31, x30, 2047
00400010 fe208ce3 beq x1, x2, -8
00400014 00112f83 lw x31, 1(x2)
00400018 fe1fafa3 sw x1, -1(x31)
0040001c 800fc093 xori x1, x31, -2048
00400020 41ffd093 srai x1, x31, 31
00400024 0ff0000f fence
00400028 00000073 ecall
0040002c 00100073 ebreak
00400030 043100b3 word
";

static WORDS: &str = "3100b3 12345537 ffdff06f 7fff0fe7 fe208ce3 112f83 fe1fafa3 \
    800fc093 41ffd093 ff0000f 73 100073 43100b3";

fn compare_listing(rt: &impl Abort, alloc: Global) -> Result<(), NoMemory> {
    let words = words_of(rt, alloc, WORDS)?;
    let text = listing(alloc, words.as_slice())?;
    assert_eq!(rt; text.as_slice(), LISTED.as_bytes());
    Ok(())
}

#[test]
fn listed(rt: HostRuntime) -> Result<(), NoMemory> {
    compare_listing(&rt, rt.alloc())
}

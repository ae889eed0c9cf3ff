//! Encodings of every instruction with edge values of its operands. The words are those of GNU binutils.

use crate::numbers::{parts, word};
use rv_isa::{decode, encode};
use std::alloc::Global;
use std::process::Abort;
use std::test::Fail;

/// Words in hexadecimal, each with its instruction as it is shown.
static INSTRUCTIONS: &str = "\
000000b7 Upper { op: Lui, rd: 1, imm: 0 }
ffffffb7 Upper { op: Lui, rd: 31, imm: 1048575 }
12345537 Upper { op: Lui, rd: 10, imm: 74565 }
00000097 Upper { op: Auipc, rd: 1, imm: 0 }
ffffff97 Upper { op: Auipc, rd: 31, imm: 1048575 }
12345517 Upper { op: Auipc, rd: 10, imm: 74565 }
ffdff06f Jal { rd: 0, imm: -4 }
800000ef Jal { rd: 1, imm: -1048576 }
7fffffef Jal { rd: 31, imm: 1048574 }
001000ef Jal { rd: 1, imm: 2048 }
000012ef Jal { rd: 5, imm: 4096 }
002000ef Jal { rd: 1, imm: 2 }
00008067 Jalr { rd: 0, rs1: 1, imm: 0 }
7fff0fe7 Jalr { rd: 31, rs1: 30, imm: 2047 }
800f80e7 Jalr { rd: 1, rs1: 31, imm: -2048 }
fe208ce3 Branch { op: Beq, rs1: 1, rs2: 2, imm: -8 }
fe648fe3 Branch { op: Beq, rs1: 9, rs2: 6, imm: -2 }
7e0f9fe3 Branch { op: Bne, rs1: 31, rs2: 0, imm: 4094 }
008390e3 Branch { op: Bne, rs1: 7, rs2: 8, imm: 2048 }
81f04063 Branch { op: Blt, rs1: 0, rs2: 31, imm: -4096 }
fe64cfe3 Branch { op: Blt, rs1: 9, rs2: 6, imm: -2 }
fe20dce3 Branch { op: Bge, rs1: 1, rs2: 2, imm: -8 }
0083d0e3 Branch { op: Bge, rs1: 7, rs2: 8, imm: 2048 }
7e0fefe3 Branch { op: Bltu, rs1: 31, rs2: 0, imm: 4094 }
fe64efe3 Branch { op: Bltu, rs1: 9, rs2: 6, imm: -2 }
81f07063 Branch { op: Bgeu, rs1: 0, rs2: 31, imm: -4096 }
0083f0e3 Branch { op: Bgeu, rs1: 7, rs2: 8, imm: 2048 }
800f8083 Load { op: Lb, rd: 1, rs1: 31, imm: -2048 }
00810f83 Load { op: Lb, rd: 31, rs1: 2, imm: 8 }
7fff9083 Load { op: Lh, rd: 1, rs1: 31, imm: 2047 }
00011f83 Load { op: Lh, rd: 31, rs1: 2, imm: 0 }
ffffa083 Load { op: Lw, rd: 1, rs1: 31, imm: -1 }
00112f83 Load { op: Lw, rd: 31, rs1: 2, imm: 1 }
800fc083 Load { op: Lbu, rd: 1, rs1: 31, imm: -2048 }
00814f83 Load { op: Lbu, rd: 31, rs1: 2, imm: 8 }
7fffd083 Load { op: Lhu, rd: 1, rs1: 31, imm: 2047 }
00015f83 Load { op: Lhu, rd: 31, rs1: 2, imm: 0 }
801f8023 Store { op: Sb, rs1: 31, rs2: 1, imm: -2048 }
01f10423 Store { op: Sb, rs1: 2, rs2: 31, imm: 8 }
7e1f9fa3 Store { op: Sh, rs1: 31, rs2: 1, imm: 2047 }
01f11023 Store { op: Sh, rs1: 2, rs2: 31, imm: 0 }
fe1fafa3 Store { op: Sw, rs1: 31, rs2: 1, imm: -1 }
01f12fa3 Store { op: Sw, rs1: 2, rs2: 31, imm: 31 }
800f8093 Immediate { op: Addi, rd: 1, rs1: 31, imm: -2048 }
02a00513 Immediate { op: Addi, rd: 10, rs1: 0, imm: 42 }
7fffa093 Immediate { op: Slti, rd: 1, rs1: 31, imm: 2047 }
00102513 Immediate { op: Slti, rd: 10, rs1: 0, imm: 1 }
ffffb093 Immediate { op: Sltiu, rd: 1, rs1: 31, imm: -1 }
00003513 Immediate { op: Sltiu, rd: 10, rs1: 0, imm: 0 }
800fc093 Immediate { op: Xori, rd: 1, rs1: 31, imm: -2048 }
02a04513 Immediate { op: Xori, rd: 10, rs1: 0, imm: 42 }
7fffe093 Immediate { op: Ori, rd: 1, rs1: 31, imm: 2047 }
00106513 Immediate { op: Ori, rd: 10, rs1: 0, imm: 1 }
fffff093 Immediate { op: Andi, rd: 1, rs1: 31, imm: -1 }
00007513 Immediate { op: Andi, rd: 10, rs1: 0, imm: 0 }
01ff9093 Shift { op: Slli, rd: 1, rs1: 31, amount: 31 }
00009f93 Shift { op: Slli, rd: 31, rs1: 1, amount: 0 }
01ffd093 Shift { op: Srli, rd: 1, rs1: 31, amount: 31 }
0000df93 Shift { op: Srli, rd: 31, rs1: 1, amount: 0 }
41ffd093 Shift { op: Srai, rd: 1, rs1: 31, amount: 31 }
4000df93 Shift { op: Srai, rd: 31, rs1: 1, amount: 0 }
003100b3 Register { op: Add, rd: 1, rs1: 2, rs2: 3 }
40100fb3 Register { op: Sub, rd: 31, rs1: 0, rs2: 1 }
01ef9033 Register { op: Sll, rd: 0, rs1: 31, rs2: 30 }
003120b3 Register { op: Slt, rd: 1, rs1: 2, rs2: 3 }
00103fb3 Register { op: Sltu, rd: 31, rs1: 0, rs2: 1 }
01efc033 Register { op: Xor, rd: 0, rs1: 31, rs2: 30 }
003150b3 Register { op: Srl, rd: 1, rs1: 2, rs2: 3 }
40105fb3 Register { op: Sra, rd: 31, rs1: 0, rs2: 1 }
01efe033 Register { op: Or, rd: 0, rs1: 31, rs2: 30 }
003170b3 Register { op: And, rd: 1, rs1: 2, rs2: 3 }
02100fb3 Register { op: Mul, rd: 31, rs1: 0, rs2: 1 }
03ef9033 Register { op: Mulh, rd: 0, rs1: 31, rs2: 30 }
023120b3 Register { op: Mulhsu, rd: 1, rs1: 2, rs2: 3 }
02103fb3 Register { op: Mulhu, rd: 31, rs1: 0, rs2: 1 }
03efc033 Register { op: Div, rd: 0, rs1: 31, rs2: 30 }
023150b3 Register { op: Divu, rd: 1, rs1: 2, rs2: 3 }
02106fb3 Register { op: Rem, rd: 31, rs1: 0, rs2: 1 }
03eff033 Register { op: Remu, rd: 0, rs1: 31, rs2: 30 }
0ff0000f Fence { rd: 0, rs1: 0, imm: 255 }
8330000f Fence { rd: 0, rs1: 0, imm: -1997 }
00000073 Ecall
00100073 Ebreak
";

/// Words of no instruction, and what is wrong with them.
static OTHERS: &str = "\
00000000 of one bit all over
ffffffff of one bit all over
043100b3 funct7 2
423100b3 funct7 0x21
403110b3 SLL with funct7 0x20
40311093 SLLI with funct7 0x20
02005013 SRLI with bit 25
00001067 JALR with funct3 1
00002063 a branch with funct3 2
00003003 a load with funct3 3
00003023 a store with funct3 3
0000100f FENCE.I
000000f3 ECALL with a register
00200073 URET
00001073 CSRRW
003100b2 a word of 16 bits
";

/// The word is the instruction, and the instruction has the word.
fn assert_is(rt: &impl Abort, alloc: Global, line: &str) -> Result<(), Fail> {
    let (first, want) = parts(rt, line);
    let word = word(rt, first);
    let Some(found) = decode(word) else {
        panic!(rt; "no instruction: {line}");
    };
    let shown = format!(in alloc; "{found:?}")?;
    assert_eq!(rt; shown.as_str(), want);
    assert_eq!(rt; encode(found), word, "{want}");
    Ok(())
}

#[test]
fn words_are_instructions(rt: HostRuntime) -> Result<(), Fail> {
    for line in INSTRUCTIONS.lines() {
        assert_is(&rt, rt.alloc(), line)?;
    }
    Ok(())
}

#[test]
fn words_without_a_row(rt: HostRuntime) {
    for line in OTHERS.lines() {
        let word = word(&rt, parts(&rt, line).0);
        assert!(rt; decode(word).is_none(), "{line}");
    }
}

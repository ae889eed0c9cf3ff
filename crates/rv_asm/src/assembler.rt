//! From lines of assembly to words.

ghost use Rattle.std.specs.Prelude.{◌≡◌, ℕ, ◌+◌, ◌^◌, ◌<◌, ◌≤◌, length, map, Some, All, IfOk, IfSome, unwrap_or, option_and_then};
ghost use Rattle.std.specs.HashMap.{get};
ghost use Rattle.std.specs.Prelude.{nat_eq};
ghost use Rattle.std.specs.Option.{option_copied};
ghost use Rattle.rv_isa.specs.Table.{instruction_of, InRange};
ghost use Rattle.rv_asm.specs.Asm.{place_from, target_of, distance, low_part, high_part, address, line_instruction, instructions_of};

use crate::line::AsmLine;
use al_base::NoMemory;
use rv_isa::addresses::CODE_START;
use rv_isa::encode;
use rv_isa::instr::{ImmediateOp, Instr, UpperOp};
use std::alloc::Global;
use std::collections::HashMap;

/// The words of a text. A label leads to the first place where it stands.
pub fn assemble(alloc: Global, lines: &[AsmLine]) -> Result<Vec<u32>, NoMemory>
    // all addresses lie below 2^31
    requires short { length lines.now ≤ 2 ^ 28 }
    // registers, immediates, and the ways to labels
    requires in_range { All InRange (instructions_of lines.now) }
    ensures { IfOk result (λ words. map instruction_of words.items ≡ map Some (instructions_of lines.now)) }
{
    let places = find_places(alloc, lines)?;
    let mut words = Vec::new(alloc);
    for line in lines {
        let there = target(&places, line);
        match line_instruction(words.len() as u32, there, line) {
            Some(i) => words.push(encode(i))?,
            None => {}
        }
    }
    Ok(words)
}

/// The word at which each label stands first.
fn find_places(alloc: Global, lines: &[AsmLine]) -> Result<HashMap<u32, u32>, NoMemory>
    requires { length lines.now ≤ 2 ^ 28 }
    ensures { IfOk result (λ places. (label : ℕ) → get nat_eq places label ≡ place_from 0 label lines.now) }
{
    let mut places = HashMap::new(alloc);
    let mut here = 0;
    for line in lines {
        match line {
            AsmLine::Label(label) => {
                if !places.contains_key(label) {
                    places.insert(*label, here)?;
                }
            }
            _ => here += 1,
        }
    }
    Ok(places)
}

/// The word that a line leads to.
fn target(places: &HashMap<u32, u32>, line: &AsmLine) -> u32
    ensures { result ≡ unwrap_or (option_and_then (λ label. get nat_eq places.now label) (target_of line.now)) 0 }
{
    match line.target() {
        Some(label) => places.get(&label).copied().unwrap_or(0),
        None => 0,
    }
}

impl AsmLine {
    /// The label that the line leads to.
    fn target(&self) -> Option<u32>
        ensures { result ≡ target_of self.now }
    {
        match self {
            AsmLine::Label(_) | AsmLine::Plain(_) => None,
            AsmLine::Branch { label, .. }
            | AsmLine::Jal { label, .. }
            | AsmLine::High { label, .. }
            | AsmLine::Low { label, .. }
            | AsmLine::JumpLow { label, .. } => Some(*label),
        }
    }
}

/// The instruction of a line that is word number `here` and leads to word `there`.
fn line_instruction(here: u32, there: u32, line: &AsmLine) -> Option<Instr>
    requires here { here ≤ 2 ^ 28 }
    requires there { there ≤ 2 ^ 28 }
    ensures { result ≡ line_instruction here there line.now }
{
    let address = CODE_START + 4 * there;
    let distance = 4 * there as i32 - 4 * here as i32;
    match *line {
        AsmLine::Label(_) => None,
        AsmLine::Plain(i) => Some(i),
        AsmLine::Branch { op, rs1, rs2, .. } => Some(Instr::Branch {
            op,
            rs1,
            rs2,
            imm: distance,
        }),
        AsmLine::Jal { rd, .. } => Some(Instr::Jal { rd, imm: distance }),
        AsmLine::High { rd, .. } => Some(Instr::Upper {
            op: UpperOp::Lui,
            rd,
            imm: high_part(address),
        }),
        AsmLine::Low { rd, rs1, .. } => {
            Some(Instr::Immediate {
                op: ImmediateOp::Addi,
                rd,
                rs1,
                imm: low_part(address),
            })
        }
        AsmLine::JumpLow { rd, rs1, .. } => Some(Instr::Jalr {
            rd,
            rs1,
            imm: low_part(address),
        }),
    }
}

fn high_part(address: u32) -> u32
    requires { address < 2 ^ 31 }
    ensures { result ≡ high_part address }
{
    (address + 2048) / 4096 % (1 << 20)
}

fn low_part(address: u32) -> i32
    ensures { result ≡ low_part address }
{
    let low = address % 4096;
    if low < 2048 {
        low as i32
    } else {
        low as i32 - 4096
    }
}

//! Units of values, in the shared region.

ghost use Rattle.std.specs.Prelude.{◌≡◌, ◌+◌, ◌*◌, ◌^◌, ◌<◌, ◌≤◌, pos, [], ◌∷◌, ◌++◌, All, length, OnOk};
ghost use Rattle.al_ir.specs.Units.{units_in};
ghost use Rattle.rv_form.specs.Units.{unit_code, units_code, round_code, loop_code, run_code, runs_code, value_code};
ghost use Rattle.rv_emit.specs.Near.{IsNear};
ghost use Rattle.rv_emit_units.specs.Ways.{way_of, IsSmall};

use crate::zeros::WORDS;
use al_base::NoMemory;
use al_ir::Run;
use rv_code::Home;
use rv_emit::homes::{bring, frame_load, frame_store};
use rv_emit::instrs::{branch, immediate, load, store};
use rv_emit::words::offset_from;
use rv_emit_acts::units::{frame_address, load_op, store_op};
use rv_isa::instr::{BranchOp, ImmediateOp, Instr, LoadOp, StoreOp};

/// The register of the value's address.
const BASE: u8 = 10;
/// The register of a unit's word.
const WORD: u8 = 11;
/// The register that goes over units.
const UNIT: u8 = 12;
/// The register of the address behind the last one.
const END: u8 = 13;
/// Up to so many units of a size stand one by one.
const FEW: u32 = 4;

/// What is done with each unit: it is loaded into a word of the frame, or stored from one, or 0 is stored.
#[derive(Clone, Copy, Debug, PartialEq, Eq)]
pub enum Way {
    Loads,
    Stores,
    Clears,
}

/// One unit, so many bytes behind the value's address, and word `k` of the frame.
fn unit(code: &mut Vec<Instr>, way: Way, size: u8, offset: u32, k: u32) -> Result<(), NoMemory>
    requires offset { offset ≤ 2 ^ 20 }
    requires word { k < 2 ^ 20 }
    ensures { OnOk result (code.new.items ≡ code.old.items ++ unit_code (way_of way) size 10 offset k) }
{
    match way {
        Way::Loads => {
            load(code, load_op(size), WORD, BASE, offset as i32)?;
            frame_store(code, WORD, k)
        }
        Way::Stores => {
            frame_load(code, WORD, k)?;
            store(code, store_op(size), BASE, WORD, offset as i32)
        }
        Way::Clears => store(code, store_op(size), BASE, 0, offset as i32),
    }
}

/// So many units of one size, one by one.
fn units(
    code: &mut Vec<Instr>,
    way: Way,
    size: u8,
    offset: u32,
    k: u32,
    count: u32,
) -> Result<(), NoMemory>
    requires offset { offset + 256 * count ≤ 2 ^ 20 }
    requires words { k + count ≤ 2 ^ 20 }
    ensures { OnOk result (code.new.items ≡ code.old.items ++ units_code (way_of way) size offset k count) }
{
    let (mut at, mut word, mut left) = (offset, k, count);
    while left > 0 {
        unit(code, way, size, at, word)?;
        at += size as u32;
        word += 1;
        left -= 1;
    }
    Ok(())
}

/// A round of a loop over units of one size.
fn round(code: &mut Vec<Instr>, way: Way, size: u8) -> Result<(), NoMemory>
    ensures { OnOk result (code.new.items ≡ code.old.items ++ round_code (way_of way) size) }
{
    match way {
        Way::Loads => {
            load(code, load_op(size), WORD, UNIT, 0)?;
            store(code, StoreOp::Sw, WORDS, WORD, 0)?;
            next(code, size)?;
            immediate(code, ImmediateOp::Addi, WORDS, WORDS, 4)?;
            branch(code, BranchOp::Bne, UNIT, END, -16)
        }
        Way::Stores => {
            load(code, LoadOp::Lw, WORD, WORDS, 0)?;
            store(code, store_op(size), UNIT, WORD, 0)?;
            next(code, size)?;
            immediate(code, ImmediateOp::Addi, WORDS, WORDS, 4)?;
            branch(code, BranchOp::Bne, UNIT, END, -16)
        }
        Way::Clears => {
            store(code, store_op(size), UNIT, 0, 0)?;
            next(code, size)?;
            branch(code, BranchOp::Bne, UNIT, END, -8)
        }
    }
}

/// Goes to the next unit.
fn next(code: &mut Vec<Instr>, size: u8) -> Result<(), NoMemory>
    ensures { OnOk result (code.new.items ≡ code.old.items ++ Instr.Immediate ImmediateOp.Addi 12 12 (pos size) ∷ []) }
{
    immediate(code, ImmediateOp::Addi, UNIT, UNIT, size as i32)
}

/// Units of one size in a loop.
fn unit_loop(code: &mut Vec<Instr>, way: Way, run: Run, k: u32) -> Result<(), NoMemory>
    requires run { IsSmall run }
    requires word { k < 2 ^ 20 }
    ensures { OnOk result (code.new.items ≡ code.old.items ++ loop_code (way_of way) run k) }
{
    frame_address(code, WORDS, k)?;
    immediate(code, ImmediateOp::Addi, UNIT, BASE, run.at as i32)?;
    let end = run.at + run.count * run.size as u32;
    immediate(code, ImmediateOp::Addi, END, BASE, end as i32)?;
    round(code, way, run.size)
}

/// Units of one size, the first of which has word `k` of the frame.
fn run_units(code: &mut Vec<Instr>, way: Way, run: Run, k: u32) -> Result<(), NoMemory>
    requires run { IsSmall run }
    requires words { k + run.count ≤ 2 ^ 19 }
    ensures { OnOk result (code.new.items ≡ code.old.items ++ run_code (way_of way) run k) }
{
    if run.count <= FEW {
        units(code, way, run.size, run.at, k, run.count)
    } else {
        unit_loop(code, way, run, k)
    }
}

/// Units of any sizes, the first of which has word `k` of the frame.
#[tactic(auto, using(crate::proofs::Counting::units_of_one_more))]
fn all_units(code: &mut Vec<Instr>, way: Way, runs: &[Run], k: u32) -> Result<(), NoMemory>
    requires runs { All IsSmall runs.now }
    requires words { k + length (units_in runs.now) ≤ 2 ^ 19 }
    ensures { OnOk result (code.new.items ≡ code.old.items ++ runs_code (way_of way) runs.now k) }
{
    let mut word = k;
    for run in runs {
        run_units(code, way, *run, word)?;
        word += run.count;
    }
    Ok(())
}

/// All units of a value at an address and so many bytes further on; their words are those of the frame from slot `t` on.
pub fn value(
    code: &mut Vec<Instr>,
    way: Way,
    at: Home,
    offset: u32,
    runs: &[Run],
    t: u32,
) -> Result<(), NoMemory>
    requires at { IsNear at }
    requires runs { All IsSmall runs.now }
    requires words { t + length (units_in runs.now) ≤ 2 ^ 19 }
    ensures { OnOk result (code.new.items ≡ code.old.items ++ value_code (way_of way) at offset runs.now t) }
{
    bring(code, at, BASE)?;
    offset_from(code, offset, BASE, BASE)?;
    all_units(code, way, runs, t)
}

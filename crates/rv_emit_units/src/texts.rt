//! Texts that are composed byte by byte.

ghost use Rattle.std.specs.Prelude.{◌≡◌, ◌+◌, ◌≤◌, ◌++◌, length, OnOk};
ghost use Rattle.rv_code.specs.Homes.{put_code};
ghost use Rattle.rv_form.specs.Texts.{text_code};
ghost use Rattle.rv_emit.specs.Near.{IsNear};

use al_base::NoMemory;
use rv_code::Home;
use rv_emit::homes::{get, get_register, put, put_register};
use rv_emit::instrs::{add, branch, immediate, load};
use rv_emit::pieces::call;
use rv_emit_jumps::jumps::{distance, get_width};
use rv_isa::instr::{BranchOp, ImmediateOp, Instr, LoadOp};

/// The register of the byte.
const BYTE: u8 = 10;
/// The register of its address.
const PLACE: u8 = 11;

/// How many words it takes to write a slot.
fn put_width(home: Home, scratch: u8) -> u32
    ensures value { result ≡ length (put_code home scratch) }
    ensures few { result ≤ 3 }
{
    match home {
        Home::Frame(k) => { if k < 512 { 1 } else { 3 } }
        Home::Saved(_) => 0,
    }
}

/// Loads bytes up to a 0 and composes each of them; the slot has the place of the next one.
pub fn put_text(code: &mut Vec<Instr>, at: Home) -> Result<(), NoMemory>
    requires { IsNear at }
    ensures { OnOk result (code.new.items ≡ code.old.items ++ text_code at) }
{
    let next = 1 + put_width(at, PLACE);
    let end = get_width(at, PLACE) + 4 + next;
    let place = get_register(at, PLACE);
    get(code, at, PLACE)?;
    load(code, LoadOp::Lbu, BYTE, place, 0)?;
    branch(code, BranchOp::Beq, BYTE, 0, distance(0, 4 + next))?;
    call(code, 16)?;
    immediate(code, ImmediateOp::Addi, put_register(at, PLACE), place, 1)?;
    put(code, at, PLACE)?;
    add(
        code,
        Instr::Jal {
            rd: 0,
            imm: distance(end, 0),
        },
    )
}

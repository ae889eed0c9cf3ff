//! Jumps and branches, by how far the jumps of a function go.

ghost use Rattle.std.specs.Prelude.{◌≡◌, ◌+◌, ◌*◌, ◌^◌, ◌<◌, ◌≤◌, [], ◌∷◌, ◌++◌, OnOk, length};
ghost use Rattle.rv_code.specs.Homes.{get_code};
ghost use Rattle.rv_code.specs.Jumps.{place, distance, go_code, link_code, jump_code, opposite, branch_code};
ghost use Rattle.rv_form.specs.Flow.{skip_code, turn_to, not_less, is_less, unless_code, skip_unless_code};
ghost use Rattle.rv_emit.specs.Near.{IsNear};

use al_base::{NoMemory, Op};
use rv_code::{Home, Reach};
use rv_emit::homes::{get, get_register};
use rv_emit::instrs::{add, branch, immediate, jump_by, low_part, upper};
use rv_emit::pieces::{TURNS, call, turn};
use rv_isa::addresses::CODE_START;
use rv_isa::instr::{BranchOp, ImmediateOp, Instr};

/// The address of word number `at` of the code.
pub fn place(at: u32) -> u32
    requires { at ≤ 2 ^ 24 }
    ensures { result ≡ place at }
{
    CODE_START + 4 * at
}

/// From one word of the code to another, in bytes.
pub fn distance(here: u32, there: u32) -> i32
    requires here { here ≤ 2 ^ 25 }
    requires there { there ≤ 2 ^ 25 }
    ensures { result ≡ distance here there }
{
    4 * there as i32 - 4 * here as i32
}

/// To any word of the code.
pub fn go(code: &mut Vec<Instr>, there: u32) -> Result<(), NoMemory>
    requires { there ≤ 2 ^ 24 }
    ensures { OnOk result (code.new.items ≡ code.old.items ++ go_code there) }
{
    let at = place(there);
    upper(code, 5, at)?;
    jump_by(code, 0, 5, low_part(at))
}

/// To any word of the code, with the place behind it in register 1.
pub fn link(code: &mut Vec<Instr>, there: u32) -> Result<(), NoMemory>
    requires { there ≤ 2 ^ 24 }
    ensures { OnOk result (code.new.items ≡ code.old.items ++ link_code there) }
{
    let at = place(there);
    upper(code, 5, at)?;
    jump_by(code, 1, 5, low_part(at))
}

/// A jump that stands at word `here`.
pub fn jump(code: &mut Vec<Instr>, reach: Reach, here: u32, there: u32) -> Result<(), NoMemory>
    requires here { here ≤ 2 ^ 25 }
    requires there { there ≤ 2 ^ 24 }
    ensures { OnOk result (code.new.items ≡ code.old.items ++ jump_code reach here there) }
{
    match reach {
        Reach::Short | Reach::Middle => add(
            code,
            Instr::Jal {
                rd: 0,
                imm: distance(here, there),
            },
        ),
        Reach::Long => go(code, there),
    }
}

/// The branch that is taken where another one is not.
pub fn opposite(op: BranchOp) -> BranchOp
    ensures { result ≡ opposite op }
{
    match op {
        BranchOp::Beq => BranchOp::Bne,
        BranchOp::Bne => BranchOp::Beq,
        BranchOp::Blt => BranchOp::Bge,
        BranchOp::Bge => BranchOp::Blt,
        BranchOp::Bltu => BranchOp::Bgeu,
        BranchOp::Bgeu => BranchOp::Bltu,
    }
}

/// A branch that stands at word `here`.
pub fn branch_to(
    code: &mut Vec<Instr>,
    reach: Reach,
    op: BranchOp,
    a: u8,
    b: u8,
    here: u32,
    there: u32,
) -> Result<(), NoMemory>
    requires here { here < 2 ^ 25 }
    requires there { there ≤ 2 ^ 24 }
    ensures { OnOk result (code.new.items ≡ code.old.items ++ branch_code reach op a b here there) }
{
    match reach {
        Reach::Short => branch(code, op, a, b, distance(here, there)),
        Reach::Middle => {
            branch(code, opposite(op), a, b, 8)?;
            jump(code, Reach::Middle, here + 1, there)
        }
        Reach::Long => {
            branch(code, opposite(op), a, b, 12)?;
            jump(code, Reach::Long, here + 1, there)
        }
    }
}

/// How many words it takes to read a slot.
pub fn get_width(home: Home, scratch: u8) -> u32
    ensures value { result ≡ length (get_code home scratch) }
    ensures few { result ≤ 3 }
{
    match home {
        Home::Frame(k) => { if k < 512 { 1 } else { 3 } }
        Home::Saved(_) => 0,
    }
}

/// A branch on the word of a slot against 0. The operation stands at word `at`.
pub fn skip(
    code: &mut Vec<Instr>,
    reach: Reach,
    op: BranchOp,
    slot: Home,
    at: u32,
    there: u32,
) -> Result<(), NoMemory>
    requires slot { IsNear slot }
    requires at { at ≤ 2 ^ 24 }
    requires there { there ≤ 2 ^ 24 }
    ensures { OnOk result (code.new.items ≡ code.old.items ++ skip_code reach op slot at there) }
{
    get(code, slot, 10)?;
    let here = at + get_width(slot, 10);
    branch_to(code, reach, op, get_register(slot, 10), 0, here, there)
}

/// A turn, and then there.
pub fn turn_to(code: &mut Vec<Instr>, reach: Reach, at: u32, there: u32) -> Result<(), NoMemory>
    requires at { at ≤ 2 ^ 24 }
    requires there { there ≤ 2 ^ 24 }
    ensures { OnOk result (code.new.items ≡ code.old.items ++ turn_to reach at there) }
{
    match reach {
        Reach::Short => {
            immediate(code, ImmediateOp::Addi, TURNS, TURNS, -1)?;
            branch(code, BranchOp::Bne, TURNS, 0, distance(at + 1, there))?;
            call(code, 2)?;
            jump(code, Reach::Short, at + 4, there)
        }
        Reach::Middle => {
            turn(code)?;
            jump(code, Reach::Middle, at + 4, there)
        }
        Reach::Long => {
            turn(code)?;
            jump(code, Reach::Long, at + 4, there)
        }
    }
}

/// The branch that is taken where a word is not less.
pub fn not_less(signed: bool) -> BranchOp
    ensures { result ≡ not_less signed }
{
    if signed {
        BranchOp::Bge
    } else {
        BranchOp::Bgeu
    }
}

/// The branch that is taken where it is.
pub fn is_less(signed: bool) -> BranchOp
    ensures { result ≡ is_less signed }
{
    if signed {
        BranchOp::Blt
    } else {
        BranchOp::Bltu
    }
}

/// To another word where a comparison of registers `a` and `b` does not hold.
pub fn unless(
    code: &mut Vec<Instr>,
    reach: Reach,
    op: Op,
    signed: bool,
    a: u8,
    b: u8,
    here: u32,
    there: u32,
) -> Result<(), NoMemory>
    requires here { here < 2 ^ 25 }
    requires there { there ≤ 2 ^ 24 }
    ensures { OnOk result (code.new.items ≡ code.old.items ++ unless_code reach op signed a b here there) }
{
    match op {
        Op::Lt => branch_to(code, reach, not_less(signed), a, b, here, there),
        Op::Le => branch_to(code, reach, is_less(signed), b, a, here, there),
        Op::Eq => branch_to(code, reach, BranchOp::Bne, a, b, here, there),
        Op::Ne => branch_to(code, reach, BranchOp::Beq, a, b, here, there),
        _ => Ok(()),
    }
}

/// To another word where a comparison of slots does not hold. The operation stands at word `at`.
pub fn skip_unless(
    code: &mut Vec<Instr>,
    reach: Reach,
    op: Op,
    signed: bool,
    left: Home,
    right: Home,
    at: u32,
    there: u32,
) -> Result<(), NoMemory>
    requires left { IsNear left }
    requires right { IsNear right }
    requires at { at ≤ 2 ^ 24 }
    requires there { there ≤ 2 ^ 24 }
    ensures { OnOk result (code.new.items ≡ code.old.items ++ skip_unless_code reach op signed left right at there) }
{
    get(code, left, 10)?;
    get(code, right, 11)?;
    let a = get_register(left, 10);
    let b = get_register(right, 11);
    let here = at + get_width(left, 10) + get_width(right, 11);
    unless(code, reach, op, signed, a, b, here, there)
}

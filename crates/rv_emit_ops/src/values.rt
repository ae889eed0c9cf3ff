//! Operations on values.

ghost use Rattle.std.specs.Prelude.{◌≡◌, ◌++◌, OnOk};
ghost use Rattle.rv_form.specs.Template.{template};
ghost use Rattle.rv_emit_ops.specs.Plans.{layout_in};
ghost use Rattle.rv_emit_ops.specs.Emitting.{CanEmit};

use crate::plan::Plan;
use al_base::{Kind, NoMemory, Op as Arith};
use al_ir::{Ir, Op};
use rv_emit::homes::{frame_load, get, get_register, put, put_register};
use rv_emit::pieces::{private_load, private_store};
use rv_emit::words;
use rv_emit_dispatch::parts::stack_of;
use rv_emit_longs::longs;
use rv_emit_pairs::{constants, conversions, pairs};
use rv_emit_units::zeros;
use rv_isa::instr::Instr;
use std::alloc::Global;

/// A constant.
pub fn constant(
    code: &mut Vec<Instr>,
    ir: &Ir,
    plan: &Plan,
    f: u32,
    pc: usize,
    to: u32,
    word: u32,
) -> Result<(), NoMemory>
    requires { CanEmit ir.now plan.now f pc (Op.Constant to word) }
    ensures { OnOk result (code.new.items ≡ code.old.items ++ template (layout_in ir.now plan.now) f pc (Op.Constant to word)) }
{
    words::constant(code, plan.home(f, to), word)
}

/// A copy.
pub fn copy(
    code: &mut Vec<Instr>,
    ir: &Ir,
    plan: &Plan,
    f: u32,
    pc: usize,
    to: u32,
    from: u32,
) -> Result<(), NoMemory>
    requires { CanEmit ir.now plan.now f pc (Op.Copy to from) }
    ensures { OnOk result (code.new.items ≡ code.old.items ++ template (layout_in ir.now plan.now) f pc (Op.Copy to from)) }
{
    words::copy(code, plan.home(f, to), plan.home(f, from))
}

/// Words of 0.
pub fn zero(
    code: &mut Vec<Instr>,
    ir: &Ir,
    plan: &Plan,
    f: u32,
    pc: usize,
    to: u32,
    count: u32,
) -> Result<(), NoMemory>
    requires { CanEmit ir.now plan.now f pc (Op.Zero to count) }
    ensures { OnOk result (code.new.items ≡ code.old.items ++ template (layout_in ir.now plan.now) f pc (Op.Zero to count)) }
{
    match plan.homes.get(f as usize) {
        Some(homes) => zeros::zero(code, homes, to, count),
        None => Err(NoMemory),
    }
}

/// A word of a result.
pub fn result_word(
    code: &mut Vec<Instr>,
    ir: &Ir,
    plan: &Plan,
    f: u32,
    pc: usize,
    to: u32,
    word: u32,
) -> Result<(), NoMemory>
    requires { CanEmit ir.now plan.now f pc (Op.Result to word) }
    ensures { OnOk result (code.new.items ≡ code.old.items ++ template (layout_in ir.now plan.now) f pc (Op.Result to word)) }
{
    let home = plan.home(f, to);
    frame_load(code, put_register(home, 10), stack_of(ir, f) + word)?;
    put(code, home, 10)
}

/// An operation on words.
pub fn word(
    code: &mut Vec<Instr>,
    ir: &Ir,
    plan: &Plan,
    f: u32,
    pc: usize,
    op: Arith,
    signed: bool,
    to: u32,
    left: u32,
    right: u32,
) -> Result<(), NoMemory>
    requires { CanEmit ir.now plan.now f pc (Op.Word op signed to left right) }
    ensures { OnOk result (code.new.items ≡ code.old.items ++ template (layout_in ir.now plan.now) f pc (Op.Word op signed to left right)) }
{
    let (a, b) = (plan.home(f, left), plan.home(f, right));
    words::word(code, op, signed, plan.home(f, to), a, b)
}

/// An operation on a word and a constant.
pub fn word_by(
    code: &mut Vec<Instr>,
    ir: &Ir,
    plan: &Plan,
    f: u32,
    pc: usize,
    op: Arith,
    signed: bool,
    to: u32,
    left: u32,
    word: u32,
) -> Result<(), NoMemory>
    requires { CanEmit ir.now plan.now f pc (Op.WordBy op signed to left word) }
    ensures { OnOk result (code.new.items ≡ code.old.items ++ template (layout_in ir.now plan.now) f pc (Op.WordBy op signed to left word)) }
{
    let (to, left) = (plan.home(f, to), plan.home(f, left));
    constants::word_by(code, op, signed, to, left, word)
}

/// An operation on pairs of words.
#[tactic(auto, using(crate::proofs::Counts::some_words))]
pub fn long(
    code: &mut Vec<Instr>,
    alloc: Global,
    ir: &Ir,
    plan: &Plan,
    f: u32,
    pc: usize,
    op: Arith,
    signed: bool,
    to: u32,
    left: u32,
    right: u32,
) -> Result<(), NoMemory>
    requires { CanEmit ir.now plan.now f pc (Op.Long op signed to left right) }
    ensures { OnOk result (code.new.items ≡ code.old.items ++ template (layout_in ir.now plan.now) f pc (Op.Long op signed to left right)) }
{
    let routines = plan.routines.as_slice();
    let (a, a1) = (plan.home(f, left), plan.home(f, left + 1));
    let (b, b1) = (plan.home(f, right), plan.home(f, right + 1));
    let (to, to1) = (plan.home(f, to), plan.home(f, to + 1));
    longs::long(code, alloc, routines, op, signed, to, to1, a, a1, b, b1)
}

/// Each bit is turned.
pub fn complement(
    code: &mut Vec<Instr>,
    ir: &Ir,
    plan: &Plan,
    f: u32,
    pc: usize,
    to: u32,
    from: u32,
) -> Result<(), NoMemory>
    requires { CanEmit ir.now plan.now f pc (Op.Complement to from) }
    ensures { OnOk result (code.new.items ≡ code.old.items ++ template (layout_in ir.now plan.now) f pc (Op.Complement to from)) }
{
    words::complement(code, plan.home(f, to), plan.home(f, from))
}

/// Whether a word is 0.
pub fn is_zero(
    code: &mut Vec<Instr>,
    ir: &Ir,
    plan: &Plan,
    f: u32,
    pc: usize,
    to: u32,
    from: u32,
) -> Result<(), NoMemory>
    requires { CanEmit ir.now plan.now f pc (Op.IsZero to from) }
    ensures { OnOk result (code.new.items ≡ code.old.items ++ template (layout_in ir.now plan.now) f pc (Op.IsZero to from)) }
{
    words::is_zero(code, plan.home(f, to), plan.home(f, from))
}

/// Whether a pair is not 0.
pub fn is_long_set(
    code: &mut Vec<Instr>,
    ir: &Ir,
    plan: &Plan,
    f: u32,
    pc: usize,
    to: u32,
    from: u32,
) -> Result<(), NoMemory>
    requires { CanEmit ir.now plan.now f pc (Op.IsLongSet to from) }
    ensures { OnOk result (code.new.items ≡ code.old.items ++ template (layout_in ir.now plan.now) f pc (Op.IsLongSet to from)) }
{
    let (low, high) = (plan.home(f, from), plan.home(f, from + 1));
    pairs::is_long_set(code, plan.home(f, to), low, high)
}

/// A conversion of integers.
#[tactic(auto, using(crate::proofs::Counts::some_kind_words))]
pub fn convert(
    code: &mut Vec<Instr>,
    ir: &Ir,
    plan: &Plan,
    f: u32,
    pc: usize,
    from: Kind,
    into: Kind,
    to: u32,
    of: u32,
) -> Result<(), NoMemory>
    requires { CanEmit ir.now plan.now f pc (Op.Convert from into to of) }
    ensures { OnOk result (code.new.items ≡ code.old.items ++ template (layout_in ir.now plan.now) f pc (Op.Convert from into to of)) }
{
    let (to, to1) = (plan.home(f, to), plan.home(f, to + 1));
    let (of, of1) = (plan.home(f, of), plan.home(f, of + 1));
    conversions::convert(code, from, into, to, to1, of, of1)
}

/// Bytes of a word.
pub fn extract(
    code: &mut Vec<Instr>,
    ir: &Ir,
    plan: &Plan,
    f: u32,
    pc: usize,
    to: u32,
    from: u32,
    skip: u8,
    size: u8,
) -> Result<(), NoMemory>
    requires { CanEmit ir.now plan.now f pc (Op.Extract to from skip size) }
    ensures { OnOk result (code.new.items ≡ code.old.items ++ template (layout_in ir.now plan.now) f pc (Op.Extract to from skip size)) }
{
    words::extract(code, plan.home(f, to), plan.home(f, from), skip, size)
}

/// A word and a constant added up.
pub fn offset(
    code: &mut Vec<Instr>,
    ir: &Ir,
    plan: &Plan,
    f: u32,
    pc: usize,
    to: u32,
    from: u32,
    bytes: u32,
) -> Result<(), NoMemory>
    requires { CanEmit ir.now plan.now f pc (Op.Offset to from bytes) }
    ensures { OnOk result (code.new.items ≡ code.old.items ++ template (layout_in ir.now plan.now) f pc (Op.Offset to from bytes)) }
{
    words::offset(code, plan.home(f, to), plan.home(f, from), bytes)
}

/// A pointer that moves.
pub fn advance(
    code: &mut Vec<Instr>,
    ir: &Ir,
    plan: &Plan,
    f: u32,
    pc: usize,
    back: bool,
    size: u32,
    to: u32,
    pointer: u32,
    count: u32,
) -> Result<(), NoMemory>
    requires { CanEmit ir.now plan.now f pc (Op.Advance back size to pointer count) }
    ensures { OnOk result (code.new.items ≡ code.old.items ++ template (layout_in ir.now plan.now) f pc (Op.Advance back size to pointer count)) }
{
    let (pointer, count) = (plan.home(f, pointer), plan.home(f, count));
    words::advance(code, back, size, plan.home(f, to), pointer, count)
}

/// The distance of two pointers.
pub fn between(
    code: &mut Vec<Instr>,
    ir: &Ir,
    plan: &Plan,
    f: u32,
    pc: usize,
    size: u32,
    to: u32,
    left: u32,
    right: u32,
) -> Result<(), NoMemory>
    requires { CanEmit ir.now plan.now f pc (Op.Between size to left right) }
    ensures { OnOk result (code.new.items ≡ code.old.items ++ template (layout_in ir.now plan.now) f pc (Op.Between size to left right)) }
{
    let (left, right) = (plan.home(f, left), plan.home(f, right));
    words::between(code, size, plan.home(f, to), left, right)
}

/// A word of the private globals.
pub fn get_private(
    code: &mut Vec<Instr>,
    ir: &Ir,
    plan: &Plan,
    f: u32,
    pc: usize,
    to: u32,
    place: u32,
) -> Result<(), NoMemory>
    requires { CanEmit ir.now plan.now f pc (Op.GetPrivate to place) }
    ensures { OnOk result (code.new.items ≡ code.old.items ++ template (layout_in ir.now plan.now) f pc (Op.GetPrivate to place)) }
{
    let home = plan.home(f, to);
    private_load(code, put_register(home, 10), place)?;
    put(code, home, 10)
}

/// A word into the private globals.
pub fn put_private(
    code: &mut Vec<Instr>,
    ir: &Ir,
    plan: &Plan,
    f: u32,
    pc: usize,
    place: u32,
    from: u32,
) -> Result<(), NoMemory>
    requires { CanEmit ir.now plan.now f pc (Op.PutPrivate place from) }
    ensures { OnOk result (code.new.items ≡ code.old.items ++ template (layout_in ir.now plan.now) f pc (Op.PutPrivate place from)) }
{
    let home = plan.home(f, from);
    get(code, home, 10)?;
    private_store(code, get_register(home, 10), place)
}

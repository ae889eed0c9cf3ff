//! Jumps, calls and returns.

ghost use Rattle.std.specs.Prelude.{◌≡◌, ◌++◌, OnOk};
ghost use Rattle.rv_form.specs.Template.{template};
ghost use Rattle.rv_emit_ops.specs.Plans.{layout_in};
ghost use Rattle.rv_emit_ops.specs.Emitting.{CanEmit};

use crate::plan::Plan;
use crate::program::{arguments_of, class_arguments, slots_of};
use al_base::{NoMemory, Op as Arith};
use al_ir::{Ir, Op};
use rv_emit_calls::calls;
use rv_emit_dispatch::parts::stack_of;
use rv_emit_jumps::jumps;
use rv_isa::instr::{BranchOp, Instr};

/// A jump forward over operations.
pub fn skip(
    code: &mut Vec<Instr>,
    ir: &Ir,
    plan: &Plan,
    f: u32,
    pc: usize,
    count: u32,
) -> Result<(), NoMemory>
    requires { CanEmit ir.now plan.now f pc (Op.Skip count) }
    ensures { OnOk result (code.new.items ≡ code.old.items ++ template (layout_in ir.now plan.now) f pc (Op.Skip count)) }
{
    let there = plan.start(f, pc + 1 + count as usize);
    jumps::jump(code, plan.reach(f), plan.start(f, pc), there)
}

/// The same where a word is 0.
pub fn skip_if_zero(
    code: &mut Vec<Instr>,
    ir: &Ir,
    plan: &Plan,
    f: u32,
    pc: usize,
    slot: u32,
    count: u32,
) -> Result<(), NoMemory>
    requires { CanEmit ir.now plan.now f pc (Op.SkipIfZero slot count) }
    ensures { OnOk result (code.new.items ≡ code.old.items ++ template (layout_in ir.now plan.now) f pc (Op.SkipIfZero slot count)) }
{
    let there = plan.start(f, pc + 1 + count as usize);
    let (reach, home) = (plan.reach(f), plan.home(f, slot));
    jumps::skip(code, reach, BranchOp::Beq, home, plan.start(f, pc), there)
}

/// The same where a word is not 0.
pub fn skip_if_set(
    code: &mut Vec<Instr>,
    ir: &Ir,
    plan: &Plan,
    f: u32,
    pc: usize,
    slot: u32,
    count: u32,
) -> Result<(), NoMemory>
    requires { CanEmit ir.now plan.now f pc (Op.SkipIfSet slot count) }
    ensures { OnOk result (code.new.items ≡ code.old.items ++ template (layout_in ir.now plan.now) f pc (Op.SkipIfSet slot count)) }
{
    let there = plan.start(f, pc + 1 + count as usize);
    let (reach, home) = (plan.reach(f), plan.home(f, slot));
    jumps::skip(code, reach, BranchOp::Bne, home, plan.start(f, pc), there)
}

/// The same unless a comparison holds.
pub fn skip_unless(
    code: &mut Vec<Instr>,
    ir: &Ir,
    plan: &Plan,
    f: u32,
    pc: usize,
    op: Arith,
    signed: bool,
    left: u32,
    right: u32,
    count: u32,
) -> Result<(), NoMemory>
    requires { CanEmit ir.now plan.now f pc (Op.SkipUnless op signed left right count) }
    ensures { OnOk result (code.new.items ≡ code.old.items ++ template (layout_in ir.now plan.now) f pc (Op.SkipUnless op signed left right count)) }
{
    let (at, there) = (plan.start(f, pc), plan.start(f, pc + 1 + count as usize));
    let (left, right) = (plan.home(f, left), plan.home(f, right));
    jumps::skip_unless(code, plan.reach(f), op, signed, left, right, at, there)
}

/// A jump forward to an operation.
pub fn go_to(
    code: &mut Vec<Instr>,
    ir: &Ir,
    plan: &Plan,
    f: u32,
    pc: usize,
    to: u32,
) -> Result<(), NoMemory>
    requires { CanEmit ir.now plan.now f pc (Op.GoTo to) }
    ensures { OnOk result (code.new.items ≡ code.old.items ++ template (layout_in ir.now plan.now) f pc (Op.GoTo to)) }
{
    let there = plan.start(f, to as usize);
    jumps::jump(code, plan.reach(f), plan.start(f, pc), there)
}

/// A turn, and a jump back over operations.
pub fn back(
    code: &mut Vec<Instr>,
    ir: &Ir,
    plan: &Plan,
    f: u32,
    pc: usize,
    count: u32,
) -> Result<(), NoMemory>
    requires { CanEmit ir.now plan.now f pc (Op.Back count) }
    ensures { OnOk result (code.new.items ≡ code.old.items ++ template (layout_in ir.now plan.now) f pc (Op.Back count)) }
{
    let there = plan.start(f, pc.saturating_sub(count as usize));
    jumps::turn_to(code, plan.reach(f), plan.start(f, pc), there)
}

/// A turn, and a jump to an operation.
pub fn turn(
    code: &mut Vec<Instr>,
    ir: &Ir,
    plan: &Plan,
    f: u32,
    pc: usize,
    to: u32,
) -> Result<(), NoMemory>
    requires { CanEmit ir.now plan.now f pc (Op.Turn to) }
    ensures { OnOk result (code.new.items ≡ code.old.items ++ template (layout_in ir.now plan.now) f pc (Op.Turn to)) }
{
    let there = plan.start(f, to as usize);
    jumps::turn_to(code, plan.reach(f), plan.start(f, pc), there)
}

/// A call.
pub fn invoke(
    code: &mut Vec<Instr>,
    ir: &Ir,
    plan: &Plan,
    f: u32,
    pc: usize,
    function: u32,
    arguments: u32,
) -> Result<(), NoMemory>
    requires { CanEmit ir.now plan.now f pc (Op.Invoke function arguments) }
    ensures { OnOk result (code.new.items ≡ code.old.items ++ template (layout_in ir.now plan.now) f pc (Op.Invoke function arguments)) }
{
    let Some(homes) = plan.homes.get(f as usize) else {
        return Err(NoMemory);
    };
    let (above, words) = (stack_of(ir, f), stack_of(ir, function));
    let (entry, count) = (plan.entry(function), arguments_of(ir, function));
    calls::invoke(code, homes, above, words, entry, arguments, count)
}

/// A call through a pointer.
pub fn invoke_pointer(
    code: &mut Vec<Instr>,
    ir: &Ir,
    plan: &Plan,
    f: u32,
    pc: usize,
    class: u32,
    pointer: u32,
    arguments: u32,
) -> Result<(), NoMemory>
    requires { CanEmit ir.now plan.now f pc (Op.InvokePointer class pointer arguments) }
    ensures { OnOk result (code.new.items ≡ code.old.items ++ template (layout_in ir.now plan.now) f pc (Op.InvokePointer class pointer arguments)) }
{
    let Some(homes) = plan.homes.get(f as usize) else {
        return Err(NoMemory);
    };
    let (above, dispatcher) = (stack_of(ir, f), plan.dispatcher(class));
    let count = class_arguments(ir, class);
    if count == 0 {
        return calls::invoke_pointer(code, homes, above, dispatcher, pointer, 0, 0);
    }
    calls::invoke_pointer(code, homes, above, dispatcher, pointer, arguments, count)
}

/// A call in the place of the function at hand.
pub fn become_function(
    code: &mut Vec<Instr>,
    ir: &Ir,
    plan: &Plan,
    f: u32,
    pc: usize,
    function: u32,
    arguments: u32,
) -> Result<(), NoMemory>
    requires { CanEmit ir.now plan.now f pc (Op.Become function arguments) }
    ensures { OnOk result (code.new.items ≡ code.old.items ++ template (layout_in ir.now plan.now) f pc (Op.Become function arguments)) }
{
    let Some(homes) = plan.homes.get(f as usize) else {
        return Err(NoMemory);
    };
    let (back, words) = (slots_of(ir, f), stack_of(ir, function));
    let (entry, count) = (plan.entry(function), arguments_of(ir, function));
    calls::become_function(code, homes, back, words, entry, arguments, count)
}

/// A return.
pub fn leave(
    code: &mut Vec<Instr>,
    ir: &Ir,
    plan: &Plan,
    f: u32,
    pc: usize,
    words: u32,
) -> Result<(), NoMemory>
    requires { CanEmit ir.now plan.now f pc (Op.Leave words) }
    ensures { OnOk result (code.new.items ≡ code.old.items ++ template (layout_in ir.now plan.now) f pc (Op.Leave words)) }
{
    match plan.homes.get(f as usize) {
        Some(homes) => calls::leave_function(code, homes, slots_of(ir, f), words),
        None => Err(NoMemory),
    }
}

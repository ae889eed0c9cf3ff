//! Marks at the operations of a function: where a slot is live, and where a register is busy.

ghost use Rattle.std.specs.Prelude.{◌≡◌, ◌≤◌, ◌<◌, true, length, IfOk};
ghost use Rattle.rv_regs.specs.Uses.{comes_next};
ghost use Rattle.rv_regs.specs.Marks.{marked, any_marked, agrees, all_agree, busy_from, busy_of, are_clear, IsJoin, demands, IsSettled, IsLeast};
ghost use Rattle.rv_regs.specs.Widening.{Marks, Widens, AreNone};

use crate::uses::{is_call, is_sure, may_find, reads, writes};
use al_base::NoMemory;
use al_ir::{Function, Ir, Op, Operation};
use al_items::Items;
use std::alloc::Global;

/// Whether the operation of that number is marked; none past the end is.
pub fn marked(marks: &[bool], pc: usize) -> bool
    ensures { result ≡ marked marks.now pc }
{
    pc < marks.len() && marks[pc]
}

/// Whether one that may come behind an operation is marked.
fn goes_on_marked(live: &[bool], op: &Op, pc: usize) -> bool
    requires { pc < 65536 }
    ensures { result ≡ any_marked live.now (comes_next pc op.now) }
{
    match op {
        Op::Skip { count } => marked(live, pc + 1 + *count as usize),
        Op::SkipIfZero { count, .. } => {
            marked(live, pc + 1) || marked(live, pc + 1 + *count as usize)
        }
        Op::SkipIfSet { count, .. } => {
            marked(live, pc + 1) || marked(live, pc + 1 + *count as usize)
        }
        Op::SkipUnless { count, .. } => {
            marked(live, pc + 1) || marked(live, pc + 1 + *count as usize)
        }
        Op::GoTo { to } => marked(live, *to as usize),
        Op::Back { count } => marked(live, pc.saturating_sub(*count as usize)),
        Op::Turn { to } => marked(live, *to as usize),
        Op::Become { .. } | Op::Leave { .. } | Op::Terminate { .. } | Op::Trap { .. } => false,
        _ => marked(live, pc + 1),
    }
}

/// Whether an operation agrees with a slot that stands in a register and is live before the marked operations.
fn agrees(ir: &Ir, slot: u32, live: &[bool], pc: usize, op: &Op) -> bool
    requires { pc < 65536 }
    ensures { result ≡ agrees ir.now slot live.now pc op.now }
{
    let now = marked(live, pc);
    let behind = goes_on_marked(live, op, pc);
    !may_find(ir, op, slot)
        && (now || !reads(ir, op, slot))
        && (now || !behind || (is_sure(op) && writes(ir, op, slot)))
        && !(behind && is_call(op))
}

/// Whether each operation agrees.
pub fn all_agree(ir: &Ir, slot: u32, live: &[bool], code: &[Operation]) -> bool
    requires { length code.now ≤ 65536 }
    ensures { result ≡ all_agree ir.now slot live.now 0 code.now }
{
    let mut pc: usize = 0;
    for o in code {
        if !agrees(ir, slot, live, pc, &o.op) {
            return false;
        }
        pc += 1;
    }
    true
}

/// Whether a slot is live before an operation, by what stands there and is marked behind it.
fn demands(ir: &Ir, slot: u32, live: &[bool], pc: usize, op: &Op) -> bool
    requires { pc < 65536 }
    ensures { result ≡ demands ir.now slot live.now pc op.now }
{
    reads(ir, op, slot) || (goes_on_marked(live, op, pc) && !(is_sure(op) && writes(ir, op, slot)))
}

/// Marks an operation that was not marked and has the slot live before it; whether it was such.
fn mark(ir: &Ir, slot: u32, live: &mut Items<bool>, pc: usize, op: &Op) -> bool
    requires pc { pc < 65536 }
    requires within { pc < length live.old }
    ensures { Marks ir.now slot live.old pc op.now result live.new }
{
    let marks = live.as_slice();
    let wanted = !marked(marks, pc) && demands(ir, slot, marks, pc, op);
    if wanted {
        live.set(pc, true);
    }
    wanted
}

/// Marks operations before which a slot is live, from the last one to the first; whether one was not marked before.
fn widen(ir: &Ir, slot: u32, live: &mut Items<bool>, code: &[Operation]) -> bool
    requires code { length code.now ≤ 65536 }
    requires live { length live.old ≡ length code.now }
    ensures { Widens ir.now slot code.now live.old result live.new }
{
    let mut changed = false;
    let count = code.len();
    for behind in 0..count {
        let pc = count - 1 - behind;
        if mark(ir, slot, live, pc, &code[pc].op) {
            changed = true;
        }
    }
    changed
}

/// No marks.
fn no_marks(alloc: Global, count: usize) -> Result<Items<bool>, NoMemory>
    ensures { IfOk result (λ live. AreNone count live) }
{
    let mut live = Items::new(alloc);
    for _ in 0..count {
        live.push(false)?;
    }
    Ok(live)
}

/// The operations before which a slot is live.
pub fn live(alloc: Global, ir: &Ir, slot: u32, code: &[Operation]) -> Result<Items<bool>, NoMemory>
    requires { length code.now ≤ 65536 }
    ensures settled { IfOk result (λ live. IsSettled ir.now slot live code.now) }
    ensures least { IfOk result (λ live. IsLeast ir.now slot live code.now) }
{
    let mut live = no_marks(alloc, code.len())?;
    let mut going = true;
    while going {
        going = widen(ir, slot, &mut live, code);
    }
    Ok(live)
}

/// The operations before which the register of a slot is busy.
pub fn busy(
    alloc: Global,
    ir: &Ir,
    f: &Function,
    slot: u32,
    live: &[bool],
) -> Result<Items<bool>, NoMemory>
    requires { length f.now.code ≤ 65536 }
    ensures { IfOk result (λ busy. busy ≡ busy_of ir.now f.now slot live.now) }
{
    let mut busy = Items::new(alloc);
    let mut wrote = slot < f.arguments;
    let mut pc: usize = 0;
    for o in f.code.as_slice() {
        busy.push(marked(live, pc) || wrote)?;
        wrote = writes(ir, &o.op, slot);
        pc += 1;
    }
    Ok(busy)
}

/// Whether no operation is marked in both.
pub fn are_clear(taken: &[bool], busy: &[bool]) -> bool
    ensures { result ≡ are_clear taken.now 0 busy.now }
{
    let mut pc: usize = 0;
    for b in busy {
        if *b && marked(taken, pc) {
            return false;
        }
        pc += 1;
    }
    true
}

/// Marks where one of two has a mark.
pub fn joined(alloc: Global, a: &[bool], b: &[bool]) -> Result<Items<bool>, NoMemory>
    ensures { IfOk result (λ joined. IsJoin a.now b.now joined) }
{
    let mut joined = Items::new(alloc);
    let count = if a.len() < b.len() { b.len() } else { a.len() };
    for pc in 0..count {
        joined.push(marked(a, pc) || marked(b, pc))?;
    }
    Ok(joined)
}

//! All operations.

ghost use Rattle.std.specs.Prelude.{◌≡◌, ◌++◌, OnOk};
ghost use Rattle.rv_form.specs.Template.{template};
ghost use Rattle.rv_emit_ops.specs.Plans.{layout_in};
ghost use Rattle.rv_emit_ops.specs.Emitting.{CanEmit};

use crate::actions::{
    alloc_block, can_recv, can_send, clear_units, free_block, free_chan, load, load_units,
    new_chan, par, proc, put_character, put_decimal, put_hex, put_long_decimal, put_long_hex,
    put_text, store, store_units, talk, task, terminate,
};
use crate::flow::{
    back, become_function, go_to, invoke, invoke_pointer, leave, skip, skip_if_set, skip_if_zero,
    skip_unless, turn,
};
use crate::plan::Plan;
use crate::values::{
    advance, between, complement, constant, convert, copy, extract, get_private, is_long_set,
    is_zero, long, offset, put_private, result_word, word, word_by, zero,
};
use al_base::NoMemory;
use al_ir::{Ir, Op};
use rv_emit::pieces::trap as trap_with;
use rv_emit_acts::texts::{print, put_byte};
use rv_isa::instr::Instr;
use std::alloc::Global;

/// The instructions of operation number `pc` of function number `f`.
pub fn emit(
    code: &mut Vec<Instr>,
    alloc: Global,
    ir: &Ir,
    plan: &Plan,
    f: u32,
    pc: usize,
    op: &Op,
) -> Result<(), NoMemory>
    requires { CanEmit ir.now plan.now f pc op.now }
    ensures { OnOk result (code.new.items ≡ code.old.items ++ template (layout_in ir.now plan.now) f pc op.now) }
{
    match op {
        Op::Constant { to, word } => constant(code, ir, plan, f, pc, *to, *word),
        Op::Copy { to, from } => copy(code, ir, plan, f, pc, *to, *from),
        Op::Zero { to, count } => zero(code, ir, plan, f, pc, *to, *count),
        Op::Result { to, word } => result_word(code, ir, plan, f, pc, *to, *word),
        Op::Word {
            op,
            signed,
            to,
            left,
            right,
        } => word(code, ir, plan, f, pc, *op, *signed, *to, *left, *right),
        Op::WordBy {
            op,
            signed,
            to,
            left,
            word,
        } => word_by(code, ir, plan, f, pc, *op, *signed, *to, *left, *word),
        Op::Long {
            op,
            signed,
            to,
            left,
            right,
        } => long(
            code, alloc, ir, plan, f, pc, *op, *signed, *to, *left, *right,
        ),
        Op::Complement { to, from } => complement(code, ir, plan, f, pc, *to, *from),
        Op::IsZero { to, from } => is_zero(code, ir, plan, f, pc, *to, *from),
        _ => emit_value(code, alloc, ir, plan, f, pc, op),
    }
}

/// Those of further operations on values.
fn emit_value(
    code: &mut Vec<Instr>,
    alloc: Global,
    ir: &Ir,
    plan: &Plan,
    f: u32,
    pc: usize,
    op: &Op,
) -> Result<(), NoMemory>
    requires { CanEmit ir.now plan.now f pc op.now }
    ensures { OnOk result (code.new.items ≡ code.old.items ++ template (layout_in ir.now plan.now) f pc op.now) }
{
    match op {
        Op::IsLongSet { to, from } => is_long_set(code, ir, plan, f, pc, *to, *from),
        Op::Convert { from, into, to, of } => convert(
            code, ir, plan, f, pc, *from, *into, *to, *of,
        ),
        Op::Extract {
            to,
            from,
            skip,
            size,
        } => extract(code, ir, plan, f, pc, *to, *from, *skip, *size),
        Op::Offset { to, from, bytes } => offset(code, ir, plan, f, pc, *to, *from, *bytes),
        Op::Advance {
            back,
            size,
            to,
            pointer,
            count,
        } => advance(code, ir, plan, f, pc, *back, *size, *to, *pointer, *count),
        Op::Between {
            size,
            to,
            left,
            right,
        } => between(code, ir, plan, f, pc, *size, *to, *left, *right),
        Op::GetPrivate { to, place } => get_private(code, ir, plan, f, pc, *to, *place),
        Op::PutPrivate { place, from } => put_private(code, ir, plan, f, pc, *place, *from),
        _ => emit_flow(code, alloc, ir, plan, f, pc, op),
    }
}

/// Those of jumps, calls and returns.
fn emit_flow(
    code: &mut Vec<Instr>,
    alloc: Global,
    ir: &Ir,
    plan: &Plan,
    f: u32,
    pc: usize,
    op: &Op,
) -> Result<(), NoMemory>
    requires { CanEmit ir.now plan.now f pc op.now }
    ensures { OnOk result (code.new.items ≡ code.old.items ++ template (layout_in ir.now plan.now) f pc op.now) }
{
    match op {
        Op::Skip { count } => skip(code, ir, plan, f, pc, *count),
        Op::SkipIfZero { slot, count } => skip_if_zero(code, ir, plan, f, pc, *slot, *count),
        Op::SkipIfSet { slot, count } => skip_if_set(code, ir, plan, f, pc, *slot, *count),
        Op::SkipUnless {
            op,
            signed,
            left,
            right,
            count,
        } => skip_unless(code, ir, plan, f, pc, *op, *signed, *left, *right, *count),
        Op::GoTo { to } => go_to(code, ir, plan, f, pc, *to),
        Op::Back { count } => back(code, ir, plan, f, pc, *count),
        Op::Turn { to } => turn(code, ir, plan, f, pc, *to),
        Op::Invoke {
            function,
            arguments,
        } => invoke(code, ir, plan, f, pc, *function, *arguments),
        Op::InvokePointer {
            class,
            pointer,
            arguments,
        } => invoke_pointer(code, ir, plan, f, pc, *class, *pointer, *arguments),
        Op::Become {
            function,
            arguments,
        } => become_function(code, ir, plan, f, pc, *function, *arguments),
        Op::Leave { words } => leave(code, ir, plan, f, pc, *words),
        _ => emit_access(code, alloc, ir, plan, f, pc, op),
    }
}

/// Those of accesses, blocks and channels.
fn emit_access(
    code: &mut Vec<Instr>,
    alloc: Global,
    ir: &Ir,
    plan: &Plan,
    f: u32,
    pc: usize,
    op: &Op,
) -> Result<(), NoMemory>
    requires { CanEmit ir.now plan.now f pc op.now }
    ensures { OnOk result (code.new.items ≡ code.old.items ++ template (layout_in ir.now plan.now) f pc op.now) }
{
    match op {
        Op::Load {
            to,
            at,
            offset,
            size,
        } => load(code, ir, plan, f, pc, *to, *at, *offset, *size),
        Op::Store {
            at,
            offset,
            size,
            from,
        } => store(code, ir, plan, f, pc, *at, *offset, *size, *from),
        Op::LoadUnits {
            to,
            at,
            offset,
            layout,
        } => load_units(code, ir, plan, f, pc, *to, *at, *offset, *layout),
        Op::StoreUnits {
            at,
            offset,
            layout,
            from,
        } => store_units(code, ir, plan, f, pc, *at, *offset, *layout, *from),
        Op::ClearUnits { at, offset, layout } => clear_units(
            code, ir, plan, f, pc, *at, *offset, *layout,
        ),
        Op::Alloc { to, bytes, kind } => alloc_block(code, ir, plan, f, pc, *to, *bytes, *kind),
        Op::Free { at, kind } => free_block(code, ir, plan, f, pc, *at, *kind),
        Op::NewChan {
            to,
            capacity,
            words,
        } => new_chan(code, ir, plan, f, pc, *to, *capacity, *words),
        Op::FreeChan { chan } => free_chan(code, ir, plan, f, pc, *chan),
        Op::CanRecv { to, chan } => can_recv(code, ir, plan, f, pc, *to, *chan),
        Op::CanSend { to, chan } => can_send(code, ir, plan, f, pc, *to, *chan),
        _ => emit_start(code, alloc, ir, plan, f, pc, op),
    }
}

/// Those of talks, starts and texts; the others come not here.
fn emit_start(
    code: &mut Vec<Instr>,
    alloc: Global,
    ir: &Ir,
    plan: &Plan,
    f: u32,
    pc: usize,
    op: &Op,
) -> Result<(), NoMemory>
    requires { CanEmit ir.now plan.now f pc op.now }
    ensures { OnOk result (code.new.items ≡ code.old.items ++ template (layout_in ir.now plan.now) f pc op.now) }
{
    match op {
        Op::Talk {
            branches,
            records,
            to,
            got,
        } => talk(code, ir, plan, f, pc, branches, *records, *to, *got),
        Op::Proc {
            function,
            arguments,
            words,
        } => proc(code, ir, plan, f, pc, *function, *arguments, *words),
        Op::Task {
            function,
            arguments,
            words,
        } => task(code, ir, plan, f, pc, *function, *arguments, *words),
        Op::Par {
            functions,
            arguments,
            words,
            records,
        } => par(
            code, ir, plan, f, pc, functions, *arguments, *words, *records,
        ),
        Op::PutCharacter { from } => put_character(code, ir, plan, f, pc, *from),
        Op::PutHex { from } => put_hex(code, ir, plan, f, pc, *from),
        Op::PutDecimal { signed, from } => put_decimal(code, ir, plan, f, pc, *signed, *from),
        Op::PutLongDecimal { signed, from } => put_long_decimal(
            code, ir, plan, f, pc, *signed, *from,
        ),
        Op::PutLongHex { from } => put_long_hex(code, ir, plan, f, pc, *from),
        Op::PutText { at } => put_text(code, ir, plan, f, pc, *at),
        Op::Terminate { status } => terminate(code, ir, plan, f, pc, *status),
        Op::PutByte { byte } => put_byte(code, *byte),
        Op::Print => print(code),
        Op::Trap { trap } => trap_with(code, *trap),
        _ => Err(NoMemory),
    }
}

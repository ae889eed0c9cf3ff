// The functions, each with its operations.

ghost use Rattle.std.specs.Prelude.{◌≡◌, ◌+◌, ◌≤◌, ◌++◌, [], ◌∷◌, All, OnOk, length, nat_lt};
ghost use Rattle.al_ir.specs.Bounds.{IsFunction};
ghost use Rattle.al_ir.specs.Control.{function_at};
ghost use Rattle.rv_code.specs.Laying.{all_code, rows_from};
ghost use Rattle.rv_form.specs.Flow.{no_room_words};
ghost use Rattle.rv_form.specs.Template.{template};
ghost use Rattle.rv_form.specs.Program.{places_from, start_code, operation_pieces, pieces_of, function_pieces, starts_of, entries_from, starts_from, reach_of, reaches_from, code_width};
ghost use Rattle.rv_emit_ops.specs.Plans.{layout_in, Near, AreNear};
ghost use Rattle.rv_emit_ops.specs.Emitting.{IsEmittable, CanEmit};
ghost use Rattle.rv_gen.specs.Emitting.{row_if, widths, AreFound};

use crate::emitted::{Emitted, add_row};
use al_base::NoMemory;
use al_ir::{Function, Ir, Operation};
use al_items::Items;
use rv_code::Reach;
use rv_emit_calls::calls::begin;
use rv_emit_dispatch::parts::next_word;
use rv_emit_jumps::calls::no_room;
use rv_emit_ops::ops::emit;
use rv_emit_ops::plan::Plan;
use rv_emit_ops::program::{arguments_of, slots_of};
use rv_isa::image::LineRow;
use rv_isa::instr::Instr;
use std::alloc::Global;

/// How far the jumps of a function of so many words go.
fn reach_of(width: u32) -> Reach
    ensures { result ≡ reach_of width }
{
    if width <= 1000 {
        Reach::Short
    } else if width < 1 << 18 {
        Reach::Middle
    } else {
        Reach::Long
    }
}

/// What a function begins with, in the line of its name.
fn beginning(
    code: &mut Vec<Instr>,
    lines: &mut Items<LineRow>,
    ir: &Ir,
    plan: &Plan,
    f: u32,
    line: u32,
) -> Result<(), NoMemory>
    requires { IsEmittable ir.now }
    ensures code { OnOk result (code.new.items ≡ code.old.items ++ start_code (layout_in ir.now plan.now) f) }
    ensures lines { OnOk result (lines.new ≡ lines.old ++ row_if (nat_lt (length code.old.items) (length code.new.items)) (length code.old.items) line) }
{
    let Some(homes) = plan.homes.get(f as usize) else {
        return Err(NoMemory);
    };
    let at = next_word(code)?;
    no_room(code)?;
    begin(code, homes, slots_of(ir, f), arguments_of(ir, f))?;
    let end = next_word(code)?;
    add_row(lines, at, end, line)
}

/// One operation, in its line.
fn operation(
    code: &mut Vec<Instr>,
    lines: &mut Items<LineRow>,
    starts: &mut Items<u32>,
    alloc: Global,
    ir: &Ir,
    plan: &Plan,
    f: u32,
    pc: usize,
    o: &Operation,
) -> Result<(), NoMemory>
    requires operation { CanEmit ir.now plan.now f pc o.now.op }
    requires starts { All Near starts.old }
    ensures code { OnOk result (code.new.items ≡ code.old.items ++ template (layout_in ir.now plan.now) f pc o.now.op) }
    ensures lines { OnOk result (lines.new ≡ lines.old ++ row_if (nat_lt (length code.old.items) (length code.new.items)) (length code.old.items) o.now.line) }
    ensures starts { OnOk result (starts.new ≡ starts.old ++ length code.old.items ∷ []) }
    ensures near { OnOk result (All Near starts.new) }
{
    let at = next_word(code)?;
    starts.push(at)?;
    emit(code, alloc, ir, plan, f, pc, &o.op)?;
    let end = next_word(code)?;
    add_row(lines, at, end, o.line)
}

/// The operations of function number `f`.
fn operations(
    code: &mut Vec<Instr>,
    lines: &mut Items<LineRow>,
    starts: &mut Items<u32>,
    alloc: Global,
    ir: &Ir,
    plan: &Plan,
    f: u32,
    g: &Function,
) -> Result<(), NoMemory>
    requires program { IsEmittable ir.now }
    requires near { AreNear plan.now }
    requires function { function_at ir.now f ≡ Some g.now }
    requires bounds { IsFunction ir.now g.now }
    requires starts { All Near starts.old }
    ensures code { OnOk result (code.new.items ≡ code.old.items ++ all_code (operation_pieces (layout_in ir.now plan.now) f 0 g.now.code)) }
    ensures lines { OnOk result (lines.new ≡ lines.old ++ rows_from (length code.old.items) (operation_pieces (layout_in ir.now plan.now) f 0 g.now.code)) }
    ensures starts { OnOk result (starts.new ≡ starts.old ++ places_from (length code.old.items) (widths (operation_pieces (layout_in ir.now plan.now) f 0 g.now.code))) }
    ensures near { OnOk result (All Near starts.new) }
{
    for (pc, o) in g.code.as_slice().iter().enumerate() {
        if pc > u32::MAX as usize {
            return Err(NoMemory);
        }
        operation(code, lines, starts, alloc, ir, plan, f, pc, o)?;
    }
    Ok(())
}

/// Function number `f`.
fn function(
    out: &mut Emitted,
    alloc: Global,
    ir: &Ir,
    plan: &Plan,
    f: u32,
    g: &Function,
) -> Result<(), NoMemory>
    requires program { IsEmittable ir.now }
    requires near { AreNear plan.now }
    requires function { function_at ir.now f ≡ Some g.now }
    requires bounds { IsFunction ir.now g.now }
    requires found { AreFound out.old }
    ensures code { OnOk result (out.new.code.items ≡ out.old.code.items ++ all_code (pieces_of (layout_in ir.now plan.now) f g.now)) }
    ensures lines { OnOk result (out.new.lines ≡ out.old.lines ++ rows_from (length out.old.code.items) (pieces_of (layout_in ir.now plan.now) f g.now)) }
    ensures entries { OnOk result (out.new.entries ≡ out.old.entries ++ (length out.old.code.items + no_room_words) ∷ []) }
    ensures starts { OnOk result (out.new.starts ≡ out.old.starts ++ starts_of (layout_in ir.now plan.now) f (length out.old.code.items) g.now ∷ []) }
    ensures reaches { OnOk result (out.new.reaches ≡ out.old.reaches ++ reach_of (code_width (pieces_of (layout_in ir.now plan.now) f g.now)) ∷ []) }
    ensures dispatchers { OnOk result (out.new.dispatchers ≡ out.old.dispatchers) }
    ensures routines { OnOk result (out.new.routines ≡ out.old.routines) }
    ensures found { OnOk result (AreFound out.new) }
{
    let at = next_word(&out.code)?;
    out.entries.push(at + 3)?;
    beginning(&mut out.code, &mut out.lines, ir, plan, f, g.line)?;
    let mut starts = Items::new(alloc);
    operations(
        &mut out.code,
        &mut out.lines,
        &mut starts,
        alloc,
        ir,
        plan,
        f,
        g,
    )?;
    out.starts.push(starts)?;
    let end = next_word(&out.code)?;
    out.reaches.push(reach_of(end - at))
}

/// All functions.
pub fn functions(out: &mut Emitted, alloc: Global, ir: &Ir, plan: &Plan) -> Result<(), NoMemory>
    requires program { IsEmittable ir.now }
    requires functions { All (IsFunction ir.now) ir.now.functions }
    requires count { length ir.now.functions ≤ 65536 }
    requires near { AreNear plan.now }
    requires found { AreFound out.old }
    ensures code { OnOk result (out.new.code.items ≡ out.old.code.items ++ all_code (function_pieces (layout_in ir.now plan.now) 0 ir.now.functions)) }
    ensures lines { OnOk result (out.new.lines ≡ out.old.lines ++ rows_from (length out.old.code.items) (function_pieces (layout_in ir.now plan.now) 0 ir.now.functions)) }
    ensures entries { OnOk result (out.new.entries ≡ out.old.entries ++ entries_from (layout_in ir.now plan.now) 0 (length out.old.code.items) ir.now.functions) }
    ensures starts { OnOk result (out.new.starts ≡ out.old.starts ++ starts_from (layout_in ir.now plan.now) 0 (length out.old.code.items) ir.now.functions) }
    ensures reaches { OnOk result (out.new.reaches ≡ out.old.reaches ++ reaches_from (layout_in ir.now plan.now) 0 ir.now.functions) }
    ensures dispatchers { OnOk result (out.new.dispatchers ≡ out.old.dispatchers) }
    ensures routines { OnOk result (out.new.routines ≡ out.old.routines) }
    ensures found { OnOk result (AreFound out.new) }
{
    for (f, g) in ir.functions.as_slice().iter().enumerate() {
        function(out, alloc, ir, plan, f as u32, g)?;
    }
    Ok(())
}

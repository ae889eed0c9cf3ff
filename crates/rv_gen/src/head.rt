// What stands before the functions: the end of tasks, the routines of division, and dispatchers.

ghost use Rattle.std.specs.Prelude.{◌≡◌, ◌++◌, [], ◌∷◌, All, OnOk, length, map};
ghost use Rattle.std.specs.List.{list_any};
ghost use Rattle.al_ir.specs.declared.ir.Operation.{Operation};
ghost use Rattle.rv_form.specs.Dispatch.{tree, tree_width};
ghost use Rattle.rv_form.specs.Program.{places_from, all_divisions, is_division, divides_by, uses, routine_if_used, routines_code, dispatchers_code};
ghost use Rattle.rv_emit_dispatch.specs.Stacks.{HaveRoom};
ghost use Rattle.rv_emit_ops.specs.Plans.{layout_in, Near, AreNear};

use al_base::NoMemory;
use al_ir::{Function, Ir, Op};
use al_items::Items;
use rv_emit_dispatch::parts::next_word;
use rv_emit_dispatch::trees::dispatcher;
use rv_emit_longs::longs::division_of;
use rv_emit_longs::routines::routine_of;
use rv_emit_ops::plan::Plan;
use rv_isa::instr::Instr;
use rv_long::LongOp;
use std::alloc::Global;

/// Whether an operation is a division of this kind.
fn is_division(division: LongOp, of: Option<LongOp>) -> bool
    ensures { result ≡ is_division division of }
{
    match (division, of) {
        (LongOp::Div, Some(LongOp::Div)) => true,
        (LongOp::DivU, Some(LongOp::DivU)) => true,
        (LongOp::Rem, Some(LongOp::Rem)) => true,
        (LongOp::RemU, Some(LongOp::RemU)) => true,
        _ => false,
    }
}

/// Whether an operation divides so.
fn divides_by(division: LongOp, op: &Op) -> bool
    ensures { result ≡ divides_by division op.now }
{
    match op {
        Op::Long { op, signed, .. } => is_division(division, division_of(*op, *signed)),
        _ => false,
    }
}

/// Whether a function divides so.
fn function_divides(division: LongOp, function: &Function) -> bool
    ensures { result ≡ list_any (λ (o : Operation). divides_by division o.op) function.now.code }
{
    let operations = function.code.as_slice();
    operations.iter().any(|o| divides_by(division, &o.op))
}

/// Whether the program has such a division.
fn uses(ir: &Ir, division: LongOp) -> bool
    ensures { result ≡ uses ir.now division }
{
    let functions = ir.functions.as_slice();
    functions.iter().any(|f| function_divides(division, f))
}

/// The routine of a division, where it is used, with its place.
fn routine(
    code: &mut Vec<Instr>,
    places: &mut Items<u32>,
    alloc: Global,
    ir: &Ir,
    division: LongOp,
) -> Result<(), NoMemory>
    requires { All Near places.old }
    ensures code { OnOk result (code.new.items ≡ code.old.items ++ routine_if_used ir.now division) }
    ensures places { OnOk result (places.new ≡ places.old ++ length code.old.items ∷ []) }
    ensures near { OnOk result (All Near places.new) }
{
    places.push(next_word(code)?)?;
    if uses(ir, division) {
        return routine_of(code, alloc, division);
    }
    Ok(())
}

/// The routines of all divisions, with their places.
pub fn routines(
    code: &mut Vec<Instr>,
    places: &mut Items<u32>,
    alloc: Global,
    ir: &Ir,
) -> Result<(), NoMemory>
    requires { All Near places.old }
    ensures code { OnOk result (code.new.items ≡ code.old.items ++ routines_code ir.now) }
    ensures places { OnOk result (places.new ≡ places.old ++ places_from (length code.old.items) (map (λ op. length (routine_if_used ir.now op)) all_divisions)) }
    ensures near { OnOk result (All Near places.new) }
{
    routine(code, places, alloc, ir, LongOp::Div)?;
    routine(code, places, alloc, ir, LongOp::DivU)?;
    routine(code, places, alloc, ir, LongOp::Rem)?;
    routine(code, places, alloc, ir, LongOp::RemU)
}

/// The dispatchers of all classes, with their places.
pub fn dispatchers(
    code: &mut Vec<Instr>,
    places: &mut Items<u32>,
    alloc: Global,
    ir: &Ir,
    plan: &Plan,
) -> Result<(), NoMemory>
    requires places { All Near places.old }
    requires room { HaveRoom ir.now }
    requires near { AreNear plan.now }
    ensures code { OnOk result (code.new.items ≡ code.old.items ++ dispatchers_code (layout_in ir.now plan.now) (length code.old.items) ir.now.classes) }
    ensures places { OnOk result (places.new ≡ places.old ++ places_from (length code.old.items) (map (λ class. tree_width (tree class)) ir.now.classes)) }
    ensures near { OnOk result (All Near places.new) }
{
    for class in ir.classes.as_slice() {
        places.push(next_word(code)?)?;
        let entries = plan.entries.as_slice();
        dispatcher(code, alloc, ir, entries, class.as_slice())?;
    }
    Ok(())
}

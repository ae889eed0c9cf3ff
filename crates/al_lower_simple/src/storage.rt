//! Locals that are given values, blocks and channels that are made and given back, and checks.
ghost use Rattle.std.specs.Prelude.{◌≡◌, ◌++◌, OnOk};
ghost use Rattle.al_lower_base.specs.Spots.{spot_of};
ghost use Rattle.al_lower_code.specs.Expressions.{coded, placed};
ghost use Rattle.al_lower_code.specs.Homes as homes;
ghost use Rattle.al_lower_code.specs.Simple as spec;
ghost use Rattle.al_typed.specs.Layout.{IsLaidOut};
ghost use Rattle.al_typed.specs.Typed.{type_of, place_type};

use al_base::{NoMemory, Trap};
use al_event::Block;
use al_ir::Op;
use al_lower_base::{Code, Spot, bytes, home_of, push, save, skip_if_set, slot_behind, words};
use al_lower_expr::{initialize, operand, place};
use al_lower_operands::place_at;
use al_typed::{TExpr, TInitializer, TPlace, Ty};

/// Locals are given values.
pub fn declare(code: &mut Code, s: Spot<'_>, initializers: &[TInitializer]) -> Result<(), NoMemory>
    requires { IsLaidOut s.program.now.aggregates }
    ensures { OnOk result (code.new ≡ code.old ++ spec.declare_code (spot_of s.entry) initializers.now) }
{
    for it in initializers {
        initialize(code, s, it.local, &it.value, s.turns)?;
    }
    Ok(())
}

/// A new block for what a pointer leads to, or a new channel, whose word goes to a slot.
#[tactic(auto, unfolding(al_lower_code::specs::Simple::new_code))]
fn new_at(code: &mut Code, s: Spot<'_>, ty: &Ty, to: u32) -> Result<(), NoMemory>
    requires { IsLaidOut s.program.now.aggregates }
    ensures { OnOk result (code.new ≡ code.old ++ spec.new_code (spot_of s.entry) ty.now to) }
{
    match ty {
        Ty::Pointer(of) => {
            let bytes = bytes(s, of.get())?;
            push(
                code,
                s.line,
                Op::Alloc {
                    to,
                    bytes,
                    kind: Block::Heap,
                },
            )
        }
        Ty::Chan { element, capacity } => {
            let words = words(s, element.get())?;
            push(
                code,
                s.line,
                Op::NewChan {
                    to,
                    capacity: *capacity,
                    words,
                },
            )
        }
        Ty::Void
        | Ty::Integer(_)
        | Ty::Array { .. }
        | Ty::Tuple(_)
        | Ty::Aggregate(_)
        | Ty::Function { .. } => Ok(()),
    }
}

/// The same at a place: straight into a variable's slot.
fn allocate(code: &mut Code, s: Spot<'_>, p: &TPlace) -> Result<(), NoMemory>
    requires { IsLaidOut s.program.now.aggregates }
    ensures { OnOk result (code.new ≡ code.old ++ spec.allocates (spot_of s.entry) (place_type p.now) (placed (spot_of s.entry) p.now)) }
{
    place(code, s, p, false, s.turns)?;
    let at = place_at(s, p, false, s.turns)?;
    match home_of(at) {
        Some(home) => new_at(code, s, p.ty(), home),
        None => {
            let from = slot_behind(s.turns, 1)?;
            new_at(code, s, p.ty(), from)?;
            save(code, s, p.ty(), at, from)
        }
    }
}

/// Each of these places gets a block or a channel.
pub fn alloc(code: &mut Code, s: Spot<'_>, places: &[TPlace]) -> Result<(), NoMemory>
    requires { IsLaidOut s.program.now.aggregates }
    ensures { OnOk result (code.new ≡ code.old ++ spec.alloc_code (spot_of s.entry) places.now) }
{
    for p in places {
        allocate(code, s, p)?;
    }
    Ok(())
}

/// The operation that gives back what a word of a type in a slot names.
#[tactic(auto, unfolding(al_lower_code::specs::Simple::give_back))]
fn give_back(ty: &Ty, slot: u32) -> Op
    ensures { result ≡ spec.give_back ty.now slot }
{
    match ty {
        Ty::Chan { .. } => Op::FreeChan { chan: slot },
        Ty::Void
        | Ty::Integer(_)
        | Ty::Pointer(_)
        | Ty::Array { .. }
        | Ty::Tuple(_)
        | Ty::Aggregate(_)
        | Ty::Function { .. } => Op::Free {
            at: slot,
            kind: Block::Heap,
        },
    }
}

/// What the value of an expression names is given back.
fn give_back_value(code: &mut Code, s: Spot<'_>, e: &TExpr) -> Result<(), NoMemory>
    requires { IsLaidOut s.program.now.aggregates }
    ensures { OnOk result (code.new ≡ code.old ++ spec.gives_back (spot_of s.entry) (type_of e.now) (coded (spot_of s.entry) e.now)) }
{
    let slot = operand(code, s, e, s.turns)?;
    push(code, s.line, give_back(e.ty(), slot))
}

/// What each of these values names is given back.
pub fn unalloc(code: &mut Code, s: Spot<'_>, values: &[TExpr]) -> Result<(), NoMemory>
    requires { IsLaidOut s.program.now.aggregates }
    ensures { OnOk result (code.new ≡ code.old ++ spec.unalloc_code (spot_of s.entry) values.now) }
{
    for e in values {
        give_back_value(code, s, e)?;
    }
    Ok(())
}

/// A trap where a value is 0.
pub fn check(code: &mut Code, s: Spot<'_>, e: &TExpr) -> Result<(), NoMemory>
    requires { IsLaidOut s.program.now.aggregates }
    ensures { OnOk result (code.new ≡ code.old ++ spec.checks (spot_of s.entry) (homes.words (spot_of s.entry) (type_of e.now)) (coded (spot_of s.entry) e.now)) }
{
    let slot = operand(code, s, e, s.turns)?;
    skip_if_set(code, s, words(s, e.ty())?, slot, s.turns, 1)?;
    push(code, s.line, Op::Trap { trap: Trap::Check })
}

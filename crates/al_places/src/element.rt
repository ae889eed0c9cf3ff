//! What makes a place of values.
ghost use Rattle.std.specs.Prelude.{◌≡◌, IfOk};
ghost use Rattle.al_rules.specs.Outcome.{Answers};
ghost use Rattle.al_places.specs.Places as spec;

use al_base::{Kind, NoMemory, Place};
use al_convert::pointed;
use al_items::Boxed;
use al_operands::{
    Operand, asked, beside, both, boxes, in_kind, plain, plains, rule_30_points, rule_31_indexes,
};
use al_rules::TypeStop;
use al_typed::{Aggregate, TExpr, TPlace, Ty};
use std::alloc::Global;

/// What a pointer points to.
fn aimed(alloc: Global, t: &Ty) -> Result<Ty, NoMemory>
    ensures { IfOk result (λ e. e ≡ spec.aimed t.now) }
{
    match pointed(t) {
        None => t.copy(alloc),
        Some(to) => to.copy(alloc),
    }
}

fn pointed_node(alloc: Global, a: TExpr) -> Result<TPlace, NoMemory>
    ensures { IfOk result (λ p. p ≡ spec.pointed_node a) }
{
    let ty = aimed(alloc, a.ty());
    let pointer = Boxed::new(alloc, a);
    let (ty, pointer) = both(ty, pointer)?;
    Ok(TPlace::Pointed { ty, pointer })
}

#[tactic(auto, unfolding(crate::specs::Places::pointed_by), using(al_operands::proofs::Asking::asking))]
fn pointed_by(alloc: Global, at: Place, a: TExpr) -> Result<TPlace, TypeStop>
    ensures { Answers result (spec.pointed_by at a) }
{
    let holds = rule_30_points(a.ty());
    let a = asked(30, at, holds, a)?;
    Ok(pointed_node(alloc, a)?)
}

/// `*` before a pointer.
#[tactic(auto, unfolding(crate::specs::Places::indirection), using(al_rules::proofs::Permits::permitted))]
pub fn indirection(alloc: Global, at: Place, x: Operand) -> Result<TPlace, TypeStop>
    ensures { Answers result (spec.indirection at x) }
{
    let a = plain(x)?;
    pointed_by(alloc, at, a)
}

fn element_node(alloc: Global, a: TExpr, b: TExpr) -> Result<TPlace, NoMemory>
    ensures { IfOk result (λ p. p ≡ spec.element_node a b) }
{
    let ty = aimed(alloc, a.ty());
    let boxed = boxes(alloc, a, b);
    let (ty, boxed) = both(ty, boxed)?;
    let (base, index) = boxed;
    Ok(TPlace::Element { ty, base, index })
}

/// The element that an index names.
#[tactic(auto, unfolding(crate::specs::Places::element))]
fn element(alloc: Global, a: TExpr, b: TExpr) -> Result<TPlace, NoMemory>
    ensures { IfOk result (λ p. p ≡ spec.element a b) }
{
    let b = in_kind(alloc, Kind::Int, b);
    let (a, b) = beside(a, b)?;
    element_node(alloc, a, b)
}

#[tactic(auto, unfolding(crate::specs::Places::indexed), using(al_operands::proofs::Asking::asking))]
fn indexed(
    alloc: Global,
    aggregates: &[Aggregate],
    at: Place,
    a: TExpr,
    b: TExpr,
) -> Result<TPlace, TypeStop>
    ensures { Answers result (spec.indexed aggregates.now at a b) }
{
    let holds = rule_31_indexes(aggregates, a.ty(), b.ty());
    let (a, b) = asked(31, at, holds, (a, b))?;
    Ok(element(alloc, a, b)?)
}

/// `x[y]`
#[tactic(auto, unfolding(crate::specs::Places::index), using(al_rules::proofs::Permits::permitted))]
pub fn index(
    alloc: Global,
    aggregates: &[Aggregate],
    at: Place,
    x: Operand,
    y: Operand,
) -> Result<TPlace, TypeStop>
    ensures { Answers result (spec.index aggregates.now at x y) }
{
    let (a, b) = plains(x, y)?;
    indexed(alloc, aggregates, at, a, b)
}

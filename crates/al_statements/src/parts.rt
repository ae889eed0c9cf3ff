//! What statements make of their typed parts.
ghost use Rattle.std.specs.Prelude.{◌≡◌, IfOk};
ghost use Rattle.al_rules.specs.Outcome.{Answers};
ghost use Rattle.al_statements.specs.Parts as spec;

use crate::rules::{
    rule_23_initializes, rule_42_has_integers, rule_45_allocates, rule_46_gives_back,
    rule_55_starts, rule_56_is_integer,
};
use al_base::{Kind, NoMemory, Place};
use al_operands::{Operand, asked, both, converted, in_kind, plain, plains, promoted_kind};
use al_rules::TypeStop;
use al_typed::{Aggregate, TBounds, TExpr, TPlace, Ty};
use std::alloc::Global;

/// The value that a local of a type starts with, at the local's name.
#[tactic(auto, unfolding(crate::specs::Parts::initialized), using(al_operands::proofs::Asking::asking))]
pub fn initialized(alloc: Global, at: Place, t: &Ty, x: Operand) -> Result<TExpr, TypeStop>
    ensures { Answers result (spec.initialized at t.now x) }
{
    let holds = rule_23_initializes(&x, t);
    let e = asked(23, at, holds, x.value)?;
    Ok(converted(alloc, t, e)?)
}

#[tactic(auto, unfolding(crate::specs::Parts::bounds_of))]
fn bounds_of(alloc: Global, a: TExpr, b: TExpr) -> Result<TBounds, NoMemory>
    ensures { IfOk result (λ r. r ≡ spec.bounds_of a b) }
{
    let from = in_kind(alloc, Kind::Int, a);
    let to = in_kind(alloc, Kind::Int, b);
    let (from, to) = both(from, to)?;
    Ok(TBounds { from, to })
}

#[tactic(auto, unfolding(crate::specs::Parts::bounded), using(al_operands::proofs::Asking::asking))]
fn bounded(alloc: Global, at: Place, a: TExpr, b: TExpr) -> Result<TBounds, TypeStop>
    ensures { Answers result (spec.bounded at a b) }
{
    let holds = rule_42_has_integers(a.ty(), b.ty());
    let (a, b) = asked(42, at, holds, (a, b))?;
    Ok(bounds_of(alloc, a, b)?)
}

/// The bounds of an iterator.
#[tactic(auto, unfolding(crate::specs::Parts::bounds), using(al_rules::proofs::Permits::permitted))]
pub fn bounds(alloc: Global, at: Place, x: Operand, y: Operand) -> Result<TBounds, TypeStop>
    ensures { Answers result (spec.bounds at x y) }
{
    let (a, b) = plains(x, y)?;
    bounded(alloc, at, a, b)
}

/// A place to which alloc gives a block or a channel.
#[tactic(auto, unfolding(crate::specs::Parts::allocated))]
pub fn allocated(aggregates: &[Aggregate], at: Place, place: TPlace) -> Result<TPlace, TypeStop>
    ensures { Answers result (spec.allocated aggregates.now at place) }
{
    let holds = rule_45_allocates(aggregates, place.ty());
    asked(45, at, holds, place)
}

#[tactic(auto, unfolding(crate::specs::Parts::given_value))]
fn given_value(at: Place, e: TExpr) -> Result<TExpr, TypeStop>
    ensures { Answers result (spec.given_value at e) }
{
    let holds = rule_46_gives_back(e.ty());
    asked(46, at, holds, e)
}

/// What unalloc gives back.
#[tactic(auto, unfolding(crate::specs::Parts::given_back), using(al_rules::proofs::Permits::permitted))]
pub fn given_back(at: Place, x: Operand) -> Result<TExpr, TypeStop>
    ensures { Answers result (spec.given_back at x) }
{
    let e = plain(x)?;
    given_value(at, e)
}

/// A call after proc or task.
#[tactic(auto, unfolding(crate::specs::Parts::started))]
pub fn started(at: Place, call: TExpr) -> Result<TExpr, TypeStop>
    ensures { Answers result (spec.started at call) }
{
    let holds = rule_55_starts(&call);
    asked(55, at, holds, call)
}

#[tactic(auto, unfolding(crate::specs::Parts::switched_on))]
fn switched_on(alloc: Global, e: TExpr) -> Result<TExpr, NoMemory>
    ensures { IfOk result (λ r. r ≡ spec.switched_on e) }
{
    let kind = promoted_kind(e.ty());
    in_kind(alloc, kind, e)
}

#[tactic(auto, unfolding(crate::specs::Parts::switched_value), using(al_operands::proofs::Asking::asking))]
fn switched_value(alloc: Global, at: Place, e: TExpr) -> Result<TExpr, TypeStop>
    ensures { Answers result (spec.switched_value at e) }
{
    let holds = rule_56_is_integer(e.ty());
    let e = asked(56, at, holds, e)?;
    Ok(switched_on(alloc, e)?)
}

/// The value of a switch in its promoted type.
#[tactic(auto, unfolding(crate::specs::Parts::switched), using(al_rules::proofs::Permits::permitted))]
pub fn switched(alloc: Global, at: Place, x: Operand) -> Result<TExpr, TypeStop>
    ensures { Answers result (spec.switched at x) }
{
    let e = plain(x)?;
    switched_value(alloc, at, e)
}

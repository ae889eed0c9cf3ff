//! Conditions, sizes, and values that are used.
ghost use Rattle.std.specs.Prelude.{◌≡◌, IfOk};
ghost use Rattle.al_rules.specs.Outcome.{Answers};
ghost use Rattle.al_operators.specs.Operators as spec;

use al_base::{Kind, NoMemory, Place};
use al_items::Boxed;
use al_operands::{
    Operand, asked, boxes, parts, plain, rule_27_is_condition, rule_39_has_size, rule_44_is_no_void,
};
use al_rules::TypeStop;
use al_typed::{Aggregate, Logic, TExpr, Ty};
use std::alloc::Global;

/// A value that is asked whether it is 0.
#[tactic(auto, unfolding(crate::specs::Operators::condition), using(al_rules::proofs::Permits::permitted))]
pub fn condition(at: Place, x: Operand) -> Result<TExpr, TypeStop>
    ensures { Answers result (spec.condition at x) }
{
    let a = plain(x)?;
    let holds = rule_27_is_condition(a.ty());
    asked(27, at, holds, a)
}

/// `!`
#[tactic(auto, unfolding(crate::specs::Operators::negation), using(al_rules::proofs::Permits::permitted))]
pub fn negation(alloc: Global, at: Place, x: Operand) -> Result<TExpr, TypeStop>
    ensures { Answers result (spec.negation at x) }
{
    let a = condition(at, x)?;
    let of = Boxed::new(alloc, a)?;
    let ty = Ty::Integer(Kind::Int);
    Ok(TExpr::Not { ty, of })
}

fn conditions(at: Place, x: Operand, y: Operand) -> Result<(TExpr, TExpr), TypeStop>
    ensures { Answers result (spec.conditions at x y) }
{
    let a = condition(at, x);
    let b = condition(at, y);
    parts(a, b)
}

fn logical(alloc: Global, op: Logic, a: TExpr, b: TExpr) -> Result<TExpr, NoMemory>
    ensures { IfOk result (λ t. t ≡ spec.logical op a b) }
{
    let (left, right) = boxes(alloc, a, b)?;
    let ty = Ty::Integer(Kind::Int);
    Ok(TExpr::Logical {
        ty,
        op,
        left,
        right,
    })
}

/// `&&` and `||`.
#[tactic(auto, unfolding(crate::specs::Operators::decision), using(al_rules::proofs::Permits::permitted))]
pub(crate) fn decision(
    alloc: Global,
    at: Place,
    how: Logic,
    x: Operand,
    y: Operand,
) -> Result<TExpr, TypeStop>
    ensures { Answers result (spec.decision at how x y) }
{
    let (a, b) = conditions(at, x, y)?;
    Ok(logical(alloc, how, a, b)?)
}

/// A value that is used, which is none where its type is void.
#[tactic(auto, unfolding(crate::specs::Operators::used))]
pub fn used(at: Place, e: TExpr) -> Result<TExpr, TypeStop>
    ensures { Answers result (spec.used at e) }
{
    let holds = rule_44_is_no_void(e.ty());
    asked(44, at, holds, e)
}

/// `sizeof` of a type.
#[tactic(auto, unfolding(crate::specs::Operators::size_of_type), using(al_operands::proofs::Asking::asking))]
pub fn size_of_type(aggregates: &[Aggregate], at: Place, of: Ty) -> Result<TExpr, TypeStop>
    ensures { Answers result (spec.size_of_type aggregates.now at of) }
{
    let holds = rule_39_has_size(aggregates, &of);
    let of = asked(39, at, holds, of)?;
    let ty = Ty::Integer(Kind::Int);
    Ok(TExpr::SizeofType { ty, of })
}

#[tactic(auto, unfolding(crate::specs::Operators::size_of_plain), using(al_operands::proofs::Asking::asking))]
fn size_of_plain(
    alloc: Global,
    aggregates: &[Aggregate],
    at: Place,
    a: TExpr,
) -> Result<TExpr, TypeStop>
    ensures { Answers result (spec.size_of_plain aggregates.now at a) }
{
    let holds = rule_39_has_size(aggregates, a.ty());
    let a = asked(39, at, holds, a)?;
    let value = Boxed::new(alloc, a)?;
    let ty = Ty::Integer(Kind::Int);
    Ok(TExpr::SizeofValue { ty, value })
}

/// `sizeof` of a value.
#[tactic(auto, unfolding(crate::specs::Operators::size_of_value), using(al_rules::proofs::Permits::permitted))]
pub fn size_of_value(
    alloc: Global,
    aggregates: &[Aggregate],
    at: Place,
    x: Operand,
) -> Result<TExpr, TypeStop>
    ensures { Answers result (spec.size_of_value aggregates.now at x) }
{
    let a = plain(x)?;
    size_of_plain(alloc, aggregates, at, a)
}

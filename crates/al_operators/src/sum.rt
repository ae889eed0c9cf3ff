//! Sums, and pointers that move.
ghost use Rattle.std.specs.Prelude.{◌≡◌, IfOk};
ghost use Rattle.al_rules.specs.Outcome.{Answers};
ghost use Rattle.al_operators.specs.Operators as spec;

use crate::integer::operated;
use al_base::{Kind, NoMemory, Place};
use al_convert::is_integer;
use al_operands::{
    Operand, asked, beside, both, boxes, converted, in_kind, plains, rule_24_adds,
    rule_24_subtracts,
};
use al_rules::TypeStop;
use al_typed::{Aggregate, BinaryOp, Movement, TExpr, Ty};
use std::alloc::Global;

fn move_node(
    alloc: Global,
    movement: Movement,
    pointer: TExpr,
    count: TExpr,
) -> Result<TExpr, NoMemory>
    ensures { IfOk result (λ t. t ≡ spec.move_node movement pointer count) }
{
    let ty = pointer.ty().copy(alloc);
    let boxed = boxes(alloc, pointer, count);
    let (ty, boxed) = both(ty, boxed)?;
    let (pointer, count) = boxed;
    Ok(TExpr::Move {
        ty,
        movement,
        pointer,
        count,
    })
}

/// A pointer that moves by a count.
#[tactic(auto, unfolding(crate::specs::Operators::moved))]
fn moved(alloc: Global, movement: Movement, pointer: TExpr, count: TExpr) -> Result<TExpr, NoMemory>
    ensures { IfOk result (λ t. t ≡ spec.moved movement pointer count) }
{
    let count = in_kind(alloc, Kind::Int, count);
    let (pointer, count) = beside(pointer, count)?;
    move_node(alloc, movement, pointer, count)
}

fn difference_node(alloc: Global, a: TExpr, b: TExpr) -> Result<TExpr, NoMemory>
    ensures { IfOk result (λ t. t ≡ spec.difference_node a b) }
{
    let (left, right) = boxes(alloc, a, b)?;
    let ty = Ty::Integer(Kind::Int);
    Ok(TExpr::Difference { ty, left, right })
}

/// How many elements one pointer is behind another.
#[tactic(auto, unfolding(crate::specs::Operators::difference))]
fn difference(alloc: Global, a: TExpr, b: TExpr) -> Result<TExpr, NoMemory>
    ensures { IfOk result (λ t. t ≡ spec.difference a b) }
{
    let b = converted(alloc, a.ty(), b);
    let (a, b) = beside(a, b)?;
    difference_node(alloc, a, b)
}

/// What `+` gives on values that it may stand between.
#[tactic(auto, unfolding(crate::specs::Operators::sum))]
fn sum(alloc: Global, a: TExpr, b: TExpr) -> Result<TExpr, NoMemory>
    ensures { IfOk result (λ t. t ≡ spec.sum a b) }
{
    if !is_integer(a.ty()) {
        return moved(alloc, Movement::Forward, a, b);
    }
    if is_integer(b.ty()) {
        operated(alloc, BinaryOp::Add, a, b)
    } else {
        moved(alloc, Movement::CountFirst, b, a)
    }
}

/// What `-` gives on values that it may stand between.
#[tactic(auto, unfolding(crate::specs::Operators::remaining))]
fn remaining(alloc: Global, a: TExpr, b: TExpr) -> Result<TExpr, NoMemory>
    ensures { IfOk result (λ t. t ≡ spec.remaining a b) }
{
    if !is_integer(b.ty()) {
        return difference(alloc, a, b);
    }
    if is_integer(a.ty()) {
        operated(alloc, BinaryOp::Subtract, a, b)
    } else {
        moved(alloc, Movement::Back, a, b)
    }
}

#[tactic(auto, unfolding(crate::specs::Operators::added), using(al_operands::proofs::Asking::asking))]
fn added(
    alloc: Global,
    aggregates: &[Aggregate],
    at: Place,
    a: TExpr,
    b: TExpr,
) -> Result<TExpr, TypeStop>
    ensures { Answers result (spec.added aggregates.now at a b) }
{
    let holds = rule_24_adds(aggregates, a.ty(), b.ty());
    let (a, b) = asked(24, at, holds, (a, b))?;
    Ok(sum(alloc, a, b)?)
}

/// `+`
#[tactic(auto, unfolding(crate::specs::Operators::addition), using(al_rules::proofs::Permits::permitted))]
pub(crate) fn addition(
    alloc: Global,
    aggregates: &[Aggregate],
    at: Place,
    x: Operand,
    y: Operand,
) -> Result<TExpr, TypeStop>
    ensures { Answers result (spec.addition aggregates.now at x y) }
{
    let (a, b) = plains(x, y)?;
    added(alloc, aggregates, at, a, b)
}

#[tactic(auto, unfolding(crate::specs::Operators::subtracted), using(al_operands::proofs::Asking::asking))]
fn subtracted(
    alloc: Global,
    aggregates: &[Aggregate],
    at: Place,
    a: TExpr,
    b: TExpr,
) -> Result<TExpr, TypeStop>
    ensures { Answers result (spec.subtracted aggregates.now at a b) }
{
    let holds = rule_24_subtracts(aggregates, a.ty(), b.ty());
    let (a, b) = asked(24, at, holds, (a, b))?;
    Ok(remaining(alloc, a, b)?)
}

/// `-`
#[tactic(auto, unfolding(crate::specs::Operators::subtraction), using(al_rules::proofs::Permits::permitted))]
pub(crate) fn subtraction(
    alloc: Global,
    aggregates: &[Aggregate],
    at: Place,
    x: Operand,
    y: Operand,
) -> Result<TExpr, TypeStop>
    ensures { Answers result (spec.subtraction aggregates.now at x y) }
{
    let (a, b) = plains(x, y)?;
    subtracted(alloc, aggregates, at, a, b)
}

//! What nodes with parts give, once it is known what the parts are.
ghost use Rattle.std.specs.Prelude.{◌≡◌};
ghost use Rattle.al_rules.specs.Outcome.{Answers};
ghost use Rattle.al_environment.specs.Written.{written};
ghost use Rattle.al_type_expr.specs.Parts as spec;

use al_base::Place;
use al_environment::{Environment, Here, written_type};
use al_operands::{Operand, beside};
use al_operators::{
    can_receive, can_send, cast, complement, negation, received, signed, size_of_type,
};
use al_places::{indirection, stepped, updated, zeroed};
use al_rules::{TypeStop, broken};
use al_tree::{Access, BinaryOp, PostfixOp, TypeTree, UnaryOp as Prefix};
use al_type_calls::{Callee, arrow_callee, dot_callee};
use al_type_nodes::{Found, addressed, arrow, dot, lacking, operand, place_of, placed, value};
use al_typed::{Aggregate, StepOp, TExpr, Ty, UnaryOp};
use std::alloc::Global;

/// What an operator before what is found gives. It stands at `of`.
#[tactic(auto, unfolding(crate::specs::Parts::unary), using(al_rules::proofs::Permits::permitted))]
pub(crate) fn unary(
    alloc: Global,
    aggregates: &[Aggregate],
    at: Place,
    op: Prefix,
    of: Place,
    f: Found,
) -> Result<Found, TypeStop>
    ensures { Answers result (spec.unary aggregates.now at op of f) }
{
    match op {
        Prefix::Plus => {
            let x = operand(alloc, aggregates, of, f)?;
            Ok(value(signed(alloc, at, UnaryOp::Plus, x)?))
        }
        Prefix::Minus => {
            let x = operand(alloc, aggregates, of, f)?;
            Ok(value(signed(alloc, at, UnaryOp::Minus, x)?))
        }
        Prefix::Not => {
            let x = operand(alloc, aggregates, of, f)?;
            Ok(value(negation(alloc, at, x)?))
        }
        Prefix::Complement => {
            let x = operand(alloc, aggregates, of, f)?;
            Ok(value(complement(alloc, at, UnaryOp::Complement, x)?))
        }
        Prefix::Indirect => {
            let x = operand(alloc, aggregates, of, f)?;
            Ok(place_of(indirection(alloc, at, x)?))
        }
        Prefix::Address => Ok(value(addressed(alloc, at, f)?)),
        Prefix::Increment => {
            let p = placed(at, f)?;
            Ok(value(stepped(alloc, aggregates, at, StepOp::PreIncrement, p)?))
        }
        Prefix::Decrement => {
            let p = placed(at, f)?;
            Ok(value(stepped(alloc, aggregates, at, StepOp::PreDecrement, p)?))
        }
        Prefix::Receive => {
            let x = operand(alloc, aggregates, of, f)?;
            Ok(value(received(alloc, at, x)?))
        }
        Prefix::CanReceive => {
            let x = operand(alloc, aggregates, of, f)?;
            Ok(value(can_receive(alloc, at, x)?))
        }
        Prefix::Zerox => {
            let p = placed(at, f)?;
            Ok(value(zeroed(alloc, aggregates, at, p)?))
        }
    }
}

/// What an operator behind what is found gives. It stands at `of`.
#[tactic(auto, unfolding(crate::specs::Parts::postfix_found), using(al_rules::proofs::Permits::permitted))]
pub(crate) fn postfix_found(
    alloc: Global,
    aggregates: &[Aggregate],
    at: Place,
    op: PostfixOp,
    of: Place,
    f: Found,
) -> Result<Found, TypeStop>
    ensures { Answers result (spec.postfix_found aggregates.now at op of f) }
{
    match op {
        PostfixOp::Increment => {
            let p = placed(at, f)?;
            Ok(value(stepped(alloc, aggregates, at, StepOp::PostIncrement, p)?))
        }
        PostfixOp::Decrement => {
            let p = placed(at, f)?;
            Ok(value(stepped(alloc, aggregates, at, StepOp::PostDecrement, p)?))
        }
        PostfixOp::CanSend => {
            let x = operand(alloc, aggregates, of, f)?;
            Ok(value(can_send(alloc, at, x)?))
        }
    }
}

#[tactic(auto, unfolding(crate::specs::Parts::cast_of), using(al_rules::proofs::Permits::permitted))]
fn cast_of(
    alloc: Global,
    aggregates: &[Aggregate],
    at: Place,
    to: Ty,
    of: Place,
    f: Found,
) -> Result<TExpr, TypeStop>
    ensures { Answers result (spec.cast_of aggregates.now at to of f) }
{
    let x = operand(alloc, aggregates, of, f);
    let (to, x) = beside(to, x)?;
    cast(alloc, at, to, x)
}

/// A cast to a type, which is missing where what is written stands for none.
#[tactic(auto, unfolding(crate::specs::Parts::cast_to))]
pub(crate) fn cast_to(
    alloc: Global,
    aggregates: &[Aggregate],
    at: Place,
    to: Option<Ty>,
    of: Place,
    f: Found,
) -> Result<TExpr, TypeStop>
    ensures { Answers result (spec.cast_to aggregates.now at to of f) }
{
    match to {
        None => lacking(1, at, f),
        Some(to) => cast_of(alloc, aggregates, at, to, of, f),
    }
}

/// `sizeof` of a type, which is missing where what is written stands for none.
#[tactic(auto, unfolding(crate::specs::Parts::type_sized), using(al_operands::proofs::Asking::asking))]
fn type_sized(aggregates: &[Aggregate], at: Place, of: Option<Ty>) -> Result<TExpr, TypeStop>
    ensures { Answers result (spec.type_sized aggregates.now at of) }
{
    match of {
        None => Err(broken(1, at)),
        Some(of) => size_of_type(aggregates, at, of),
    }
}

/// `sizeof` of a written type.
#[tactic(auto, using(al_rules::proofs::Permits::permitted))]
pub(crate) fn size_written(
    alloc: Global,
    env: &Environment,
    here: &Here,
    at: Place,
    of: &TypeTree,
) -> Result<Found, TypeStop>
    ensures { Answers result (spec.gives (spec.type_sized env.now.aggregates at (written env.now here.now of.now))) }
{
    let of = written_type(alloc, env, here, of)?;
    let e = type_sized(env.aggregates.as_slice(), at, of)?;
    Ok(value(e))
}

/// A member that is read or is a place.
#[tactic(auto, unfolding(crate::specs::Parts::member_found), using(al_rules::proofs::Permits::permitted))]
pub(crate) fn member_found(
    alloc: Global,
    env: &Environment,
    here: &Here,
    at: Place,
    how: Access,
    name: u32,
    of: Place,
    f: Found,
) -> Result<Found, TypeStop>
    ensures { Answers result (spec.member_found env.now here.now at how name of f) }
{
    match how {
        Access::Dot => dot(alloc, env, here, at, name, f),
        Access::Arrow => {
            let x = operand(alloc, env.aggregates.as_slice(), of, f)?;
            arrow(alloc, env, here, at, name, x)
        }
    }
}

/// A member that is called.
#[tactic(auto, unfolding(crate::specs::Parts::member_callee), using(al_rules::proofs::Permits::permitted))]
pub(crate) fn member_callee(
    alloc: Global,
    env: &Environment,
    here: &Here,
    at: Place,
    how: Access,
    name: u32,
    of: Place,
    f: Found,
) -> Result<Callee, TypeStop>
    ensures { Answers result (spec.member_callee env.now here.now at how name of f) }
{
    match how {
        Access::Dot => dot_callee(alloc, env, here, at, name, f),
        Access::Arrow => {
            let x = operand(alloc, env.aggregates.as_slice(), of, f)?;
            arrow_callee(alloc, env, here, at, name, x)
        }
    }
}

/// `op=` on what is found.
#[tactic(auto, unfolding(crate::specs::Parts::compound), using(al_rules::proofs::Permits::permitted))]
pub(crate) fn compound(
    alloc: Global,
    aggregates: &[Aggregate],
    at: Place,
    how: BinaryOp,
    f: Found,
    x: Operand,
) -> Result<TExpr, TypeStop>
    ensures { Answers result (spec.compound aggregates.now at how f x) }
{
    let p = placed(at, f);
    let (x, p) = beside(x, p)?;
    updated(alloc, aggregates, at, how, p, x)
}

//! Comparisons, and operators between two operands.
ghost use Rattle.std.specs.Prelude.{◌≡◌, IfOk};
ghost use Rattle.al_rules.specs.Outcome.{Answers};
ghost use Rattle.al_operators.specs.Operators as spec;

use crate::integer::{bitwise, multiplication, operated_in, shift};
use crate::sum::{addition, subtraction};
use crate::truth::decision;
use al_base::{Kind, NoMemory, Place};
use al_convert::is_integer;
use al_operands::{Operand, arithmetic_kind, asked, rule_26_equates, rule_26_orders};
use al_rules::TypeStop;
use al_tree::BinaryOp as Written;
use al_typed::{Aggregate, BinaryOp, Logic, TExpr, Ty};
use std::alloc::Global;

/// The kind that two values are compared in: pointers and channels are compared as uints.
fn compared_kind(a: &Ty, b: &Ty) -> Kind
    ensures { result ≡ spec.compared_kind a.now b.now }
{
    if is_integer(a) {
        arithmetic_kind(a, b)
    } else {
        Kind::Uint
    }
}

#[tactic(auto, unfolding(crate::specs::Operators::compared))]
fn compared(alloc: Global, how: BinaryOp, a: TExpr, b: TExpr) -> Result<TExpr, NoMemory>
    ensures { IfOk result (λ t. t ≡ spec.compared how a b) }
{
    let kind = compared_kind(a.ty(), b.ty());
    operated_in(alloc, kind, how, a, b)
}

/// `<`, `>`, `<=` and `>=`.
#[tactic(auto, unfolding(crate::specs::Operators::order), using(al_operands::proofs::Asking::asking))]
fn order(alloc: Global, at: Place, how: BinaryOp, x: Operand, y: Operand) -> Result<TExpr, TypeStop>
    ensures { Answers result (spec.order at how x y) }
{
    let holds = rule_26_orders(&x, &y);
    let (a, b) = asked(26, at, holds, (x.value, y.value))?;
    Ok(compared(alloc, how, a, b)?)
}

/// `==` and `!=`.
#[tactic(auto, unfolding(crate::specs::Operators::equality), using(al_operands::proofs::Asking::asking))]
fn equality(
    alloc: Global,
    at: Place,
    how: BinaryOp,
    x: Operand,
    y: Operand,
) -> Result<TExpr, TypeStop>
    ensures { Answers result (spec.equality at how x y) }
{
    let holds = rule_26_equates(&x, &y);
    let (a, b) = asked(26, at, holds, (x.value, y.value))?;
    Ok(compared(alloc, how, a, b)?)
}

/// What an operator between two operands gives, or the rule that it breaks there.
#[tactic(auto, unfolding(crate::specs::Operators::binary))]
pub fn binary(
    alloc: Global,
    aggregates: &[Aggregate],
    at: Place,
    how: Written,
    x: Operand,
    y: Operand,
) -> Result<TExpr, TypeStop>
    ensures { Answers result (spec.binary aggregates.now at how x y) }
{
    match how {
        Written::Multiply => multiplication(alloc, at, BinaryOp::Multiply, x, y),
        Written::Divide => multiplication(alloc, at, BinaryOp::Divide, x, y),
        Written::Remainder => bitwise(alloc, at, BinaryOp::Remainder, x, y),
        Written::Add => addition(alloc, aggregates, at, x, y),
        Written::Subtract => subtraction(alloc, aggregates, at, x, y),
        Written::ShiftLeft => shift(alloc, at, BinaryOp::ShiftLeft, x, y),
        Written::ShiftRight => shift(alloc, at, BinaryOp::ShiftRight, x, y),
        Written::Less => order(alloc, at, BinaryOp::Less, x, y),
        Written::Greater => order(alloc, at, BinaryOp::Greater, x, y),
        Written::LessEqual => order(alloc, at, BinaryOp::LessEqual, x, y),
        Written::GreaterEqual => order(alloc, at, BinaryOp::GreaterEqual, x, y),
        Written::Equal => equality(alloc, at, BinaryOp::Equal, x, y),
        Written::NotEqual => equality(alloc, at, BinaryOp::NotEqual, x, y),
        Written::BitAnd => bitwise(alloc, at, BinaryOp::BitAnd, x, y),
        Written::BitXor => bitwise(alloc, at, BinaryOp::BitXor, x, y),
        Written::BitOr => bitwise(alloc, at, BinaryOp::BitOr, x, y),
        Written::And => decision(alloc, at, Logic::And, x, y),
        Written::Or => decision(alloc, at, Logic::Or, x, y),
    }
}

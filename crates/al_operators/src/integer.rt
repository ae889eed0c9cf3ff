//! Operators on integers.
ghost use Rattle.std.specs.Prelude.{◌≡◌, IfOk};
ghost use Rattle.al_rules.specs.Outcome.{Answers};
ghost use Rattle.al_typed.specs.WellTyped.{result_kind as kind_of_result};
ghost use Rattle.al_operators.specs.Operators as spec;

use al_base::{Kind, NoMemory, Place};
use al_items::Boxed;
use al_operands::{
    Operand, arithmetic_kind, asked, both, boxes, in_kind, plain, plains, promoted_kind,
    rule_24_multiplies, rule_24_signs, rule_25_complements, rule_25_has_integers,
};
use al_rules::TypeStop;
use al_typed::{BinaryOp, TExpr, Ty, UnaryOp};
use std::alloc::Global;

/// The kind of what an operator on two values of a kind gives.
fn result_kind(how: BinaryOp, kind: Kind) -> Kind
    ensures { result ≡ kind_of_result how kind }
{
    match how {
        BinaryOp::Less
        | BinaryOp::Greater
        | BinaryOp::LessEqual
        | BinaryOp::GreaterEqual
        | BinaryOp::Equal
        | BinaryOp::NotEqual => Kind::Int,
        BinaryOp::Multiply
        | BinaryOp::Divide
        | BinaryOp::Remainder
        | BinaryOp::Add
        | BinaryOp::Subtract
        | BinaryOp::ShiftLeft
        | BinaryOp::ShiftRight
        | BinaryOp::BitAnd
        | BinaryOp::BitXor
        | BinaryOp::BitOr => kind,
    }
}

fn binary_node(
    alloc: Global,
    kind: Kind,
    how: BinaryOp,
    a: TExpr,
    b: TExpr,
) -> Result<TExpr, NoMemory>
    ensures { IfOk result (λ t. t ≡ spec.binary_node kind how a b) }
{
    let (left, right) = boxes(alloc, a, b)?;
    let ty = Ty::Integer(result_kind(how, kind));
    Ok(TExpr::Binary {
        ty,
        op: how,
        kind,
        left,
        right,
    })
}

/// An operator on two values that are converted to that kind.
#[tactic(auto, unfolding(crate::specs::Operators::operated_in))]
pub(crate) fn operated_in(
    alloc: Global,
    kind: Kind,
    how: BinaryOp,
    a: TExpr,
    b: TExpr,
) -> Result<TExpr, NoMemory>
    ensures { IfOk result (λ t. t ≡ spec.operated_in kind how a b) }
{
    let a = in_kind(alloc, kind, a);
    let b = in_kind(alloc, kind, b);
    let (a, b) = both(a, b)?;
    binary_node(alloc, kind, how, a, b)
}

/// An operator on two integers.
#[tactic(auto, unfolding(crate::specs::Operators::operated))]
pub(crate) fn operated(alloc: Global, how: BinaryOp, a: TExpr, b: TExpr) -> Result<TExpr, NoMemory>
    ensures { IfOk result (λ t. t ≡ spec.operated how a b) }
{
    let kind = arithmetic_kind(a.ty(), b.ty());
    operated_in(alloc, kind, how, a, b)
}

/// A shift of one integer by another.
#[tactic(auto, unfolding(crate::specs::Operators::shifted))]
fn shifted(alloc: Global, how: BinaryOp, a: TExpr, b: TExpr) -> Result<TExpr, NoMemory>
    ensures { IfOk result (λ t. t ≡ spec.shifted how a b) }
{
    let kind = promoted_kind(a.ty());
    operated_in(alloc, kind, how, a, b)
}

#[tactic(auto, unfolding(crate::specs::Operators::multiplied), using(al_operands::proofs::Asking::asking))]
fn multiplied(
    alloc: Global,
    at: Place,
    how: BinaryOp,
    a: TExpr,
    b: TExpr,
) -> Result<TExpr, TypeStop>
    ensures { Answers result (spec.multiplied at how a b) }
{
    let holds = rule_24_multiplies(a.ty(), b.ty());
    let (a, b) = asked(24, at, holds, (a, b))?;
    Ok(operated(alloc, how, a, b)?)
}

/// `*` and `/`.
#[tactic(auto, unfolding(crate::specs::Operators::multiplication), using(al_rules::proofs::Permits::permitted))]
pub(crate) fn multiplication(
    alloc: Global,
    at: Place,
    how: BinaryOp,
    x: Operand,
    y: Operand,
) -> Result<TExpr, TypeStop>
    ensures { Answers result (spec.multiplication at how x y) }
{
    let (a, b) = plains(x, y)?;
    multiplied(alloc, at, how, a, b)
}

#[tactic(auto, unfolding(crate::specs::Operators::combined), using(al_operands::proofs::Asking::asking))]
fn combined(alloc: Global, at: Place, how: BinaryOp, a: TExpr, b: TExpr) -> Result<TExpr, TypeStop>
    ensures { Answers result (spec.combined at how a b) }
{
    let holds = rule_25_has_integers(a.ty(), b.ty());
    let (a, b) = asked(25, at, holds, (a, b))?;
    Ok(operated(alloc, how, a, b)?)
}

/// `%`, `&`, `|` and `^`.
#[tactic(auto, unfolding(crate::specs::Operators::bitwise), using(al_rules::proofs::Permits::permitted))]
pub(crate) fn bitwise(
    alloc: Global,
    at: Place,
    how: BinaryOp,
    x: Operand,
    y: Operand,
) -> Result<TExpr, TypeStop>
    ensures { Answers result (spec.bitwise at how x y) }
{
    let (a, b) = plains(x, y)?;
    combined(alloc, at, how, a, b)
}

#[tactic(auto, unfolding(crate::specs::Operators::shifted_by), using(al_operands::proofs::Asking::asking))]
fn shifted_by(
    alloc: Global,
    at: Place,
    how: BinaryOp,
    a: TExpr,
    b: TExpr,
) -> Result<TExpr, TypeStop>
    ensures { Answers result (spec.shifted_by at how a b) }
{
    let holds = rule_25_has_integers(a.ty(), b.ty());
    let (a, b) = asked(25, at, holds, (a, b))?;
    Ok(shifted(alloc, how, a, b)?)
}

/// `<<` and `>>`.
#[tactic(auto, unfolding(crate::specs::Operators::shift), using(al_rules::proofs::Permits::permitted))]
pub(crate) fn shift(
    alloc: Global,
    at: Place,
    how: BinaryOp,
    x: Operand,
    y: Operand,
) -> Result<TExpr, TypeStop>
    ensures { Answers result (spec.shift at how x y) }
{
    let (a, b) = plains(x, y)?;
    shifted_by(alloc, at, how, a, b)
}

/// An operator on one value that is converted to that kind.
#[tactic(auto, unfolding(crate::specs::Operators::signed_in))]
fn signed_in(alloc: Global, kind: Kind, how: UnaryOp, a: TExpr) -> Result<TExpr, NoMemory>
    ensures { IfOk result (λ t. t ≡ spec.signed_in kind how a) }
{
    let a = in_kind(alloc, kind, a)?;
    let of = Boxed::new(alloc, a)?;
    Ok(TExpr::Unary {
        ty: Ty::Integer(kind),
        op: how,
        of,
    })
}

/// An operator on one integer, promoted.
#[tactic(auto, unfolding(crate::specs::Operators::promoted_by))]
fn promoted_by(alloc: Global, how: UnaryOp, a: TExpr) -> Result<TExpr, NoMemory>
    ensures { IfOk result (λ t. t ≡ spec.promoted_by how a) }
{
    let kind = promoted_kind(a.ty());
    signed_in(alloc, kind, how, a)
}

#[tactic(auto, unfolding(crate::specs::Operators::signed_value), using(al_operands::proofs::Asking::asking))]
fn signed_value(alloc: Global, at: Place, how: UnaryOp, a: TExpr) -> Result<TExpr, TypeStop>
    ensures { Answers result (spec.signed_value at how a) }
{
    let holds = rule_24_signs(a.ty());
    let a = asked(24, at, holds, a)?;
    Ok(promoted_by(alloc, how, a)?)
}

/// `+` and `-` before their operand.
#[tactic(auto, unfolding(crate::specs::Operators::signed), using(al_rules::proofs::Permits::permitted))]
pub fn signed(alloc: Global, at: Place, how: UnaryOp, x: Operand) -> Result<TExpr, TypeStop>
    ensures { Answers result (spec.signed at how x) }
{
    let a = plain(x)?;
    signed_value(alloc, at, how, a)
}

#[tactic(auto, unfolding(crate::specs::Operators::complement_value), using(al_operands::proofs::Asking::asking))]
fn complement_value(alloc: Global, at: Place, how: UnaryOp, a: TExpr) -> Result<TExpr, TypeStop>
    ensures { Answers result (spec.complement_value at how a) }
{
    let holds = rule_25_complements(a.ty());
    let a = asked(25, at, holds, a)?;
    Ok(promoted_by(alloc, how, a)?)
}

/// `~`
#[tactic(auto, unfolding(crate::specs::Operators::complement), using(al_rules::proofs::Permits::permitted))]
pub fn complement(alloc: Global, at: Place, how: UnaryOp, x: Operand) -> Result<TExpr, TypeStop>
    ensures { Answers result (spec.complement at how x) }
{
    let a = plain(x)?;
    complement_value(alloc, at, how, a)
}

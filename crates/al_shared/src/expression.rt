//! Expressions.
ghost use Rattle.std.specs.Prelude.{◌≡◌};
ghost use Rattle.al_shared.specs.Expressions as spec;

use crate::marks::{addressed, named};
use al_base::Place;
use al_items::Items;
use al_scope::Names;
use al_tree::{Expr, UnaryOp};

/// Where an expression stands that is a name alone.
#[tactic(auto, using(crate::proofs::ExpressionsAre::name_is))]
fn name_of(names: &Names, round: usize, e: &Expr) -> Option<Place>
    ensures { result ≡ spec.name_of names.now round e.now }
{
    match e {
        Expr::Name { at, .. } => Some(*at),
        Expr::Number { .. }
        | Expr::Char { .. }
        | Expr::Text { .. }
        | Expr::Nil { .. }
        | Expr::Tuple { .. }
        | Expr::Unary { .. }
        | Expr::Cast { .. }
        | Expr::SizeofType { .. }
        | Expr::SizeofValue { .. }
        | Expr::Index { .. }
        | Expr::Member { .. }
        | Expr::Call { .. }
        | Expr::Postfix { .. }
        | Expr::Binary { .. }
        | Expr::Iterator { .. }
        | Expr::Assign { .. }
        | Expr::Sequence { .. } => None,
    }
}

/// An operator before an expression.
fn operated(names: &Names, inside: bool, op: UnaryOp, name: Option<Place>, marks: &mut Items<bool>)
    ensures { marks.new ≡ spec.operated names.now op name inside marks.old }
{
    if let UnaryOp::Address = op {
        if let Some(at) = name {
            addressed(inside, names.declaration(at), marks);
        }
    }
}

/// Expressions.
#[cycle(expression)]
pub(crate) fn exprs(
    names: &Names,
    round: usize,
    inside: bool,
    list: &[Expr],
    marks: &mut Items<bool>,
)
    ensures { marks.new ≡ spec.each (spec.expr names.now round) list.now inside marks.old }
{
    for e in list {
        expr(names, round, inside, e, marks);
    }
}

/// Two expressions.
#[cycle(expression)]
fn two(names: &Names, round: usize, inside: bool, a: &Expr, b: &Expr, marks: &mut Items<bool>)
    ensures { marks.new ≡ spec.expr names.now round b.now inside (spec.expr names.now round a.now inside marks.old) }
{
    expr(names, round, inside, a, marks);
    expr(names, round, inside, b, marks);
}

/// An expression, inside a branch of a par or outside.
#[cycle(expression)]
#[tactic(auto, using(crate::proofs::ExpressionsAre::expr_is))]
pub(crate) fn expr(names: &Names, round: usize, inside: bool, e: &Expr, marks: &mut Items<bool>)
    ensures { marks.new ≡ spec.expr names.now round e.now inside marks.old }
{
    match e {
        Expr::Number { .. }
        | Expr::Char { .. }
        | Expr::Text { .. }
        | Expr::Nil { .. }
        | Expr::SizeofType { .. } => (),
        Expr::Name { at, .. } => named(round, inside, names.declaration(*at), marks),
        Expr::Tuple { parts, .. } | Expr::Sequence { parts, .. } => {
            exprs(names, round, inside, parts.as_slice(), marks)
        }
        Expr::Unary { op, operand, .. } => {
            let name = name_of(names, round, operand.get());
            operated(names, inside, *op, name, marks);
            expr(names, round, inside, operand.get(), marks);
        }
        Expr::Cast { operand, .. } | Expr::Postfix { operand, .. } => {
            expr(names, round, inside, operand.get(), marks)
        }
        Expr::SizeofValue { of, .. } | Expr::Member { of, .. } => {
            expr(names, round, inside, of.get(), marks)
        }
        Expr::Index { of, index, .. } => two(names, round, inside, of.get(), index.get(), marks),
        Expr::Call {
            callee,
            arguments,
            ..
        } => {
            expr(names, round, inside, callee.get(), marks);
            exprs(names, round, inside, arguments.as_slice(), marks);
        }
        Expr::Binary { left, right, .. } | Expr::Assign { left, right, .. } => {
            two(names, round, inside, left.get(), right.get(), marks)
        }
        Expr::Iterator { from, to, .. } => two(names, round, inside, from.get(), to.get(), marks),
    }
}

/// An expression that may be missing.
pub(crate) fn optional(
    names: &Names,
    round: usize,
    inside: bool,
    e: &Option<Expr>,
    marks: &mut Items<bool>,
)
    ensures { marks.new ≡ spec.optional (spec.expr names.now round) e.now inside marks.old }
{
    match e {
        None => (),
        Some(e) => expr(names, round, inside, e, marks),
    }
}

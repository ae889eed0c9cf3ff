//! The types that expressions write.
ghost use Rattle.std.specs.Prelude.{◌≡◌};
ghost use Rattle.al_type_limits.specs.Types.{with_type};
ghost use Rattle.al_type_limits.specs.Expressions as spec;

use crate::by_name::ByName;
use crate::size::{Size, beside};
use crate::types::type_size;
use al_tree::{Expr, TypeTree};

/// One more type.
pub(crate) fn add_type(names: &ByName<Size>, sum: &mut Size, t: &TypeTree)
    ensures { sum.new ≡ with_type names.now sum.old t.now }
{
    *sum = beside(*sum, type_size(names, t));
}

/// Expressions.
#[cycle(expression)]
pub(crate) fn exprs(names: &ByName<Size>, sum: &mut Size, list: &[Expr])
    ensures { sum.new ≡ spec.each (spec.expr names.now) list.now sum.old }
{
    for e in list {
        expr(names, sum, e);
    }
}

#[cycle(expression)]
fn two(names: &ByName<Size>, sum: &mut Size, a: &Expr, b: &Expr)
    ensures { sum.new ≡ spec.expr names.now b.now (spec.expr names.now a.now sum.old) }
{
    expr(names, sum, a);
    expr(names, sum, b);
}

/// An expression.
#[cycle(expression)]
#[tactic(auto, using(crate::proofs::ExpressionsAre::expr_is))]
pub(crate) fn expr(names: &ByName<Size>, sum: &mut Size, e: &Expr)
    ensures { sum.new ≡ spec.expr names.now e.now sum.old }
{
    match e {
        Expr::Number { .. }
        | Expr::Char { .. }
        | Expr::Text { .. }
        | Expr::Nil { .. }
        | Expr::Name { .. } => {}
        Expr::Tuple { parts, .. } | Expr::Sequence { parts, .. } => {
            exprs(names, sum, parts.as_slice());
        }
        Expr::Cast { to, operand, .. } => {
            add_type(names, sum, to);
            expr(names, sum, operand.get());
        }
        Expr::SizeofType { of, .. } => add_type(names, sum, of),
        Expr::Unary { operand, .. } | Expr::Postfix { operand, .. } => {
            expr(names, sum, operand.get());
        }
        Expr::SizeofValue { of, .. } | Expr::Member { of, .. } => expr(names, sum, of.get()),
        Expr::Index { of, index, .. } => two(names, sum, of.get(), index.get()),
        Expr::Call {
            callee,
            arguments,
            ..
        } => {
            expr(names, sum, callee.get());
            exprs(names, sum, arguments.as_slice());
        }
        Expr::Binary { left, right, .. } | Expr::Assign { left, right, .. } => {
            two(names, sum, left.get(), right.get());
        }
        Expr::Iterator { from, to, .. } => two(names, sum, from.get(), to.get()),
    }
}

/// An expression that may be missing.
pub(crate) fn optional(names: &ByName<Size>, sum: &mut Size, e: &Option<Expr>)
    ensures { sum.new ≡ spec.optional (spec.expr names.now) e.now sum.old }
{
    match e {
        None => {}
        Some(e) => expr(names, sum, e),
    }
}

//! Types in expressions.
ghost use Rattle.std.specs.Prelude.{◌≡◌, OnOk};
ghost use Rattle.al_declare.specs.Types as types;
ghost use Rattle.al_declare.specs.Expressions as spec;

use crate::asked::Asked;
use crate::text::Text;
use crate::type_tree::type_tree;
use al_base::NoMemory;
use al_tree::Expr;

/// Expressions.
#[cycle(expression)]
pub(crate) fn exprs(c: &Text, w: &mut Asked, list: &[Expr]) -> Result<(), NoMemory>
    ensures { OnOk result (w.new ≡ types.each spec.expr list.now c.now w.old) }
{
    for e in list {
        expr(c, w, e)?;
    }
    Ok(())
}

/// An expression.
#[cycle(expression)]
#[tactic(auto, using(crate::proofs::ExpressionsAre::expr_is))]
pub(crate) fn expr(c: &Text, w: &mut Asked, e: &Expr) -> Result<(), NoMemory>
    ensures { OnOk result (w.new ≡ spec.expr e.now c.now w.old) }
{
    match e {
        Expr::Number { .. }
        | Expr::Char { .. }
        | Expr::Text { .. }
        | Expr::Nil { .. }
        | Expr::Name { .. } => Ok(()),
        Expr::Tuple { parts, .. } => exprs(c, w, parts.as_slice()),
        Expr::Unary { operand, .. } => expr(c, w, operand.get()),
        Expr::Cast { to, operand, .. } => {
            type_tree(c, w, to)?;
            expr(c, w, operand.get())
        }
        Expr::SizeofType { of, .. } => type_tree(c, w, of),
        Expr::SizeofValue { of, .. } => expr(c, w, of.get()),
        Expr::Index { of, index, .. } => {
            expr(c, w, of.get())?;
            expr(c, w, index.get())
        }
        Expr::Member { of, .. } => expr(c, w, of.get()),
        Expr::Call {
            callee,
            arguments,
            ..
        } => {
            expr(c, w, callee.get())?;
            exprs(c, w, arguments.as_slice())
        }
        Expr::Postfix { operand, .. } => expr(c, w, operand.get()),
        Expr::Binary { left, right, .. } => {
            expr(c, w, left.get())?;
            expr(c, w, right.get())
        }
        Expr::Iterator { from, to, .. } => {
            expr(c, w, from.get())?;
            expr(c, w, to.get())
        }
        Expr::Assign { left, right, .. } => {
            expr(c, w, left.get())?;
            expr(c, w, right.get())
        }
        Expr::Sequence { parts, .. } => exprs(c, w, parts.as_slice()),
    }
}

/// An expression that may be missing.
pub(crate) fn optional(c: &Text, w: &mut Asked, e: &Option<Expr>) -> Result<(), NoMemory>
    ensures { OnOk result (w.new ≡ types.optional spec.expr e.now c.now w.old) }
{
    match e {
        None => Ok(()),
        Some(e) => expr(c, w, e),
    }
}

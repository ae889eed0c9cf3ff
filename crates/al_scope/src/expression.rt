//! Names in expressions.
ghost use Rattle.std.specs.Prelude.{◌≡◌, OnOk};
ghost use Rattle.al_scope.specs.Types as types;
ghost use Rattle.al_scope.specs.Expressions as spec;

use crate::type_tree::type_tree;
use crate::walk::Walk;
use al_base::{NoMemory, Place};
use al_tree::{EnumConstant, Expr};

/// Expressions.
#[cycle(expression)]
pub(crate) fn exprs(c: &[EnumConstant], w: &mut Walk, list: &[Expr]) -> Result<(), NoMemory>
    ensures { OnOk result (w.new ≡ types.each spec.expr list.now c.now w.old) }
{
    for e in list {
        expr(c, w, e)?;
    }
    Ok(())
}

/// An expression.
#[cycle(expression)]
#[tactic(auto, using(crate::proofs::ExpressionsAre::expr_is))]
pub(crate) fn expr(c: &[EnumConstant], w: &mut Walk, e: &Expr) -> Result<(), NoMemory>
    ensures { OnOk result (w.new ≡ spec.expr e.now c.now w.old) }
{
    match e {
        Expr::Number { .. } | Expr::Char { .. } | Expr::Text { .. } | Expr::Nil { .. } => Ok(()),
        Expr::Name { at, name } => w.use_name(*at, *name),
        Expr::Tuple { parts, .. } => exprs(c, w, parts.as_slice()),
        Expr::Unary { operand, .. } => expr(c, w, operand.get()),
        Expr::Cast { to, operand, .. } => {
            type_tree(c, w, to)?;
            expr(c, w, operand.get())
        }
        Expr::SizeofType { of, .. } => type_tree(c, w, of),
        Expr::SizeofValue { of, .. } => expr(c, w, of.get()),
        Expr::Index { of, index, .. } => {
            expr(c, w, of.get())?;
            expr(c, w, index.get())
        }
        Expr::Member { of, .. } => expr(c, w, of.get()),
        Expr::Call {
            callee,
            arguments,
            ..
        } => {
            expr(c, w, callee.get())?;
            exprs(c, w, arguments.as_slice())
        }
        Expr::Postfix { operand, .. } => expr(c, w, operand.get()),
        Expr::Binary { left, right, .. } => {
            expr(c, w, left.get())?;
            expr(c, w, right.get())
        }
        Expr::Iterator { from, to, .. } => {
            expr(c, w, from.get())?;
            expr(c, w, to.get())
        }
        Expr::Assign { left, right, .. } => {
            expr(c, w, left.get())?;
            expr(c, w, right.get())
        }
        Expr::Sequence { parts, .. } => exprs(c, w, parts.as_slice()),
    }
}

/// An expression that may be missing.
pub(crate) fn optional(c: &[EnumConstant], w: &mut Walk, e: &Option<Expr>) -> Result<(), NoMemory>
    ensures { OnOk result (w.new ≡ types.optional spec.expr e.now c.now w.old) }
{
    match e {
        None => Ok(()),
        Some(e) => expr(c, w, e),
    }
}

/// Where an expression begins.
#[tactic(auto, unfolding(crate::specs::Expressions::place))]
pub(crate) fn place(e: &Expr) -> Place
    ensures { result ≡ spec.place e.now }
{
    match e {
        Expr::Number { at, .. } => *at,
        Expr::Char { at, .. } => *at,
        Expr::Text { at, .. } => *at,
        Expr::Nil { at } => *at,
        Expr::Name { at, .. } => *at,
        Expr::Tuple { at, .. } => *at,
        Expr::Unary { at, .. } => *at,
        Expr::Cast { at, .. } => *at,
        Expr::SizeofType { at, .. } => *at,
        Expr::SizeofValue { at, .. } => *at,
        Expr::Index { at, .. } => *at,
        Expr::Member { at, .. } => *at,
        Expr::Call { at, .. } => *at,
        Expr::Postfix { at, .. } => *at,
        Expr::Binary { at, .. } => *at,
        Expr::Iterator { at, .. } => *at,
        Expr::Assign { at, .. } => *at,
        Expr::Sequence { at, .. } => *at,
    }
}

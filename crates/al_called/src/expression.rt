//! Names in expressions.
ghost use Rattle.std.specs.Prelude.{◌≡◌, OnOk};
ghost use Rattle.al_called.specs.Expressions as spec;

use crate::rules::rule_9_is_value;
use al_base::NoMemory;
use al_items::Items;
use al_rules::{TypeFault, ask};
use al_tree::Expr;

/// An expression itself, which is asked only where it is a name.
#[tactic(auto, using(crate::proofs::ExpressionsAre::itself_is))]
fn itself(names: &[Items<u8>], faults: &mut Items<TypeFault>, e: &Expr) -> Result<(), NoMemory>
    ensures { OnOk result (faults.new ≡ spec.itself names.now e.now faults.old) }
{
    match e {
        Expr::Name { at, name } => ask(faults, 9, *at, rule_9_is_value(names, *name)),
        Expr::Number { .. }
        | Expr::Char { .. }
        | Expr::Text { .. }
        | Expr::Nil { .. }
        | Expr::Tuple { .. }
        | Expr::Unary { .. }
        | Expr::Cast { .. }
        | Expr::SizeofType { .. }
        | Expr::SizeofValue { .. }
        | Expr::Index { .. }
        | Expr::Member { .. }
        | Expr::Call { .. }
        | Expr::Postfix { .. }
        | Expr::Binary { .. }
        | Expr::Iterator { .. }
        | Expr::Assign { .. }
        | Expr::Sequence { .. } => Ok(()),
    }
}

/// Expressions whose values are used.
#[cycle(expression)]
pub(crate) fn exprs(
    names: &[Items<u8>],
    faults: &mut Items<TypeFault>,
    list: &[Expr],
) -> Result<(), NoMemory>
    ensures { OnOk result (faults.new ≡ spec.each (spec.expr names.now) list.now faults.old) }
{
    for e in list {
        expr(names, faults, e)?;
    }
    Ok(())
}

/// Two expressions whose values are used.
#[cycle(expression)]
fn two(
    names: &[Items<u8>],
    faults: &mut Items<TypeFault>,
    a: &Expr,
    b: &Expr,
) -> Result<(), NoMemory>
    ensures { OnOk result (faults.new ≡ spec.expr names.now b.now (spec.expr names.now a.now faults.old)) }
{
    expr(names, faults, a)?;
    expr(names, faults, b)
}

/// What is inside an expression.
#[cycle(expression)]
#[tactic(auto, using(crate::proofs::ExpressionsAre::inside_is))]
fn inside(names: &[Items<u8>], faults: &mut Items<TypeFault>, e: &Expr) -> Result<(), NoMemory>
    ensures { OnOk result (faults.new ≡ spec.inside names.now e.now faults.old) }
{
    match e {
        Expr::Number { .. }
        | Expr::Char { .. }
        | Expr::Text { .. }
        | Expr::Nil { .. }
        | Expr::Name { .. }
        | Expr::SizeofType { .. } => Ok(()),
        Expr::Tuple { parts, .. } | Expr::Sequence { parts, .. } => {
            exprs(names, faults, parts.as_slice())
        }
        Expr::Unary { operand, .. } | Expr::Cast { operand, .. } | Expr::Postfix { operand, .. } =>
            expr(names, faults, operand.get()),
        Expr::SizeofValue { of, .. } | Expr::Member { of, .. } => expr(names, faults, of.get()),
        Expr::Index { of, index, .. } => two(names, faults, of.get(), index.get()),
        Expr::Call {
            callee,
            arguments,
            ..
        } => {
            inside(names, faults, callee.get())?;
            exprs(names, faults, arguments.as_slice())
        }
        Expr::Binary { left, right, .. } | Expr::Assign { left, right, .. } => {
            two(names, faults, left.get(), right.get())
        }
        Expr::Iterator { from, to, .. } => two(names, faults, from.get(), to.get()),
    }
}

/// An expression whose value is used.
#[cycle(expression)]
pub(crate) fn expr(
    names: &[Items<u8>],
    faults: &mut Items<TypeFault>,
    e: &Expr,
) -> Result<(), NoMemory>
    ensures { OnOk result (faults.new ≡ spec.expr names.now e.now faults.old) }
{
    itself(names, faults, e)?;
    inside(names, faults, e)
}

/// An expression that may be missing.
pub(crate) fn optional(
    names: &[Items<u8>],
    faults: &mut Items<TypeFault>,
    e: &Option<Expr>,
) -> Result<(), NoMemory>
    ensures { OnOk result (faults.new ≡ spec.optional (spec.expr names.now) e.now faults.old) }
{
    match e {
        None => Ok(()),
        Some(e) => expr(names, faults, e),
    }
}

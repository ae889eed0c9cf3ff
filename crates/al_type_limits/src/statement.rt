//! The types that statements write.
ghost use Rattle.std.specs.Prelude.{◌≡◌};
ghost use Rattle.al_type_limits.specs.Expressions as expressions;
ghost use Rattle.al_type_limits.specs.Statements as spec;

use crate::by_name::ByName;
use crate::expression::{expr, exprs, optional};
use crate::size::{Size, beside};
use crate::types::{declared, type_size};
use al_items::Boxed;
use al_tree::{Stmt, Variable};

/// A local of that base type.
fn variable(names: &ByName<Size>, base: Size, sum: &mut Size, v: &Variable)
    ensures { sum.new ≡ spec.variable names.now base v.now sum.old }
{
    *sum = beside(*sum, declared(base, &v.dcl));
    optional(names, sum, &v.value);
}

/// Locals of that base type.
fn variables(names: &ByName<Size>, base: Size, sum: &mut Size, list: &[Variable])
    ensures { sum.new ≡ expressions.each (spec.variable names.now base) list.now sum.old }
{
    for v in list {
        variable(names, base, sum, v);
    }
}

/// Statements.
#[cycle(statement)]
fn stmts(names: &ByName<Size>, sum: &mut Size, list: &[Stmt])
    ensures { sum.new ≡ expressions.each (spec.stmt names.now) list.now sum.old }
{
    for s in list {
        stmt(names, sum, s);
    }
}

/// A statement that may be missing.
#[cycle(statement)]
fn other(names: &ByName<Size>, sum: &mut Size, s: &Option<Boxed<Stmt>>)
    ensures { sum.new ≡ expressions.optional (spec.stmt names.now) s.now sum.old }
{
    match s {
        None => {}
        Some(s) => stmt(names, sum, s.get()),
    }
}

/// A statement.
#[cycle(statement)]
#[tactic(auto, using(crate::proofs::StatementsAre::stmt_is))]
pub(crate) fn stmt(names: &ByName<Size>, sum: &mut Size, s: &Stmt)
    ensures { sum.new ≡ spec.stmt names.now s.now sum.old }
{
    match s {
        Stmt::Block { body, .. } | Stmt::Alt { body, .. } => stmts(names, sum, body.as_slice()),
        Stmt::Declare {
            base,
            variables: list,
            ..
        } => variables(names, type_size(names, base), sum, list.as_slice()),
        Stmt::Value { value, .. }
        | Stmt::Case { value, .. }
        | Stmt::Become { value, .. }
        | Stmt::Check { value, .. } => expr(names, sum, value),
        Stmt::Label { body, .. } | Stmt::Rescue { body, .. } => stmt(names, sum, body.get()),
        Stmt::If {
            condition,
            then,
            other: otherwise,
            ..
        } => {
            expr(names, sum, condition);
            stmt(names, sum, then.get());
            other(names, sum, otherwise);
        }
        Stmt::While {
            condition,
            body,
            ..
        } => {
            expr(names, sum, condition);
            stmt(names, sum, body.get());
        }
        Stmt::Do {
            body,
            condition,
            ..
        } => {
            stmt(names, sum, body.get());
            expr(names, sum, condition);
        }
        Stmt::For {
            start,
            condition,
            step,
            body,
            ..
        } => {
            optional(names, sum, start);
            optional(names, sum, condition);
            optional(names, sum, step);
            stmt(names, sum, body.get());
        }
        Stmt::Switch { value, body, .. } => {
            expr(names, sum, value);
            stmts(names, sum, body.as_slice());
        }
        Stmt::Par { branches, .. } => stmts(names, sum, branches.as_slice()),
        Stmt::Return { value, .. } => optional(names, sum, value),
        Stmt::Alloc { places: list, .. }
        | Stmt::Unalloc { values: list, .. }
        | Stmt::Proc { calls: list, .. }
        | Stmt::Task { calls: list, .. } => exprs(names, sum, list.as_slice()),
        Stmt::Empty { .. }
        | Stmt::Default { .. }
        | Stmt::Raise { .. }
        | Stmt::Break { .. }
        | Stmt::Continue { .. }
        | Stmt::Goto { .. } => {}
    }
}

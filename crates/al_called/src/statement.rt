//! Expressions in statements.
ghost use Rattle.std.specs.Prelude.{◌≡◌, OnOk};
ghost use Rattle.al_called.specs.Expressions as expressions;
ghost use Rattle.al_called.specs.Statements as spec;

use crate::expression::{expr, exprs, optional};
use al_base::NoMemory;
use al_items::{Boxed, Items};
use al_rules::TypeFault;
use al_tree::{Stmt, Variable};

/// Locals with the values that they start with.
fn variables(
    names: &[Items<u8>],
    faults: &mut Items<TypeFault>,
    list: &[Variable],
) -> Result<(), NoMemory>
    ensures { OnOk result (faults.new ≡ expressions.each (spec.variable names.now) list.now faults.old) }
{
    for v in list {
        optional(names, faults, &v.value)?;
    }
    Ok(())
}

/// Statements.
#[cycle(statement)]
fn stmts(names: &[Items<u8>], faults: &mut Items<TypeFault>, list: &[Stmt]) -> Result<(), NoMemory>
    ensures { OnOk result (faults.new ≡ expressions.each (spec.stmt names.now) list.now faults.old) }
{
    for s in list {
        stmt(names, faults, s)?;
    }
    Ok(())
}

/// A statement that may be missing.
#[cycle(statement)]
fn other(
    names: &[Items<u8>],
    faults: &mut Items<TypeFault>,
    s: &Option<Boxed<Stmt>>,
) -> Result<(), NoMemory>
    ensures { OnOk result (faults.new ≡ expressions.optional (spec.stmt names.now) s.now faults.old) }
{
    match s {
        None => Ok(()),
        Some(s) => stmt(names, faults, s.get()),
    }
}

/// A statement.
#[cycle(statement)]
#[tactic(auto, using(crate::proofs::StatementsAre::stmt_is))]
pub(crate) fn stmt(
    names: &[Items<u8>],
    faults: &mut Items<TypeFault>,
    s: &Stmt,
) -> Result<(), NoMemory>
    ensures { OnOk result (faults.new ≡ spec.stmt names.now s.now faults.old) }
{
    match s {
        Stmt::Block { body, .. } | Stmt::Alt { body, .. } => stmts(names, faults, body.as_slice()),
        Stmt::Declare {
            variables: list,
            ..
        } => variables(names, faults, list.as_slice()),
        Stmt::Value { value, .. }
        | Stmt::Case { value, .. }
        | Stmt::Become { value, .. }
        | Stmt::Check { value, .. } => expr(names, faults, value),
        Stmt::Label { body, .. } | Stmt::Rescue { body, .. } => stmt(names, faults, body.get()),
        Stmt::If {
            condition,
            then,
            other: otherwise,
            ..
        } => {
            expr(names, faults, condition)?;
            stmt(names, faults, then.get())?;
            other(names, faults, otherwise)
        }
        Stmt::While {
            condition,
            body,
            ..
        } => {
            expr(names, faults, condition)?;
            stmt(names, faults, body.get())
        }
        Stmt::Do {
            body,
            condition,
            ..
        } => {
            stmt(names, faults, body.get())?;
            expr(names, faults, condition)
        }
        Stmt::For {
            start,
            condition,
            step,
            body,
            ..
        } => {
            optional(names, faults, start)?;
            optional(names, faults, condition)?;
            optional(names, faults, step)?;
            stmt(names, faults, body.get())
        }
        Stmt::Switch { value, body, .. } => {
            expr(names, faults, value)?;
            stmts(names, faults, body.as_slice())
        }
        Stmt::Par { branches, .. } => stmts(names, faults, branches.as_slice()),
        Stmt::Return { value, .. } => optional(names, faults, value),
        Stmt::Alloc { places: list, .. }
        | Stmt::Unalloc { values: list, .. }
        | Stmt::Proc { calls: list, .. }
        | Stmt::Task { calls: list, .. } => exprs(names, faults, list.as_slice()),
        Stmt::Empty { .. }
        | Stmt::Default { .. }
        | Stmt::Raise { .. }
        | Stmt::Break { .. }
        | Stmt::Continue { .. }
        | Stmt::Goto { .. } => Ok(()),
    }
}

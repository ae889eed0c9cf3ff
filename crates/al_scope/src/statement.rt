//! Scopes of parameters and locals.
ghost use Rattle.std.specs.Prelude.{◌≡◌, OnOk};
ghost use Rattle.al_scope.specs.Names as names;
ghost use Rattle.al_scope.specs.Types as types;
ghost use Rattle.al_scope.specs.Statements as spec;

use crate::expression::{expr, exprs, optional};
use crate::type_tree::{dcl_bounds, type_tree};
use crate::walk::Walk;
use al_base::NoMemory;
use al_items::Boxed;
use al_tree::{EnumConstant, Stmt, Variable};

/// A local with the value that it starts with.
#[tactic(auto, unfolding(crate::specs::Statements::variable))]
fn variable(c: &[EnumConstant], w: &mut Walk, v: &Variable) -> Result<(), NoMemory>
    ensures { OnOk result (w.new ≡ spec.variable v.now c.now w.old) }
{
    dcl_bounds(c, w, &v.dcl)?;
    w.local(v.dcl.name)?;
    optional(c, w, &v.value)
}

/// Locals.
fn variables(c: &[EnumConstant], w: &mut Walk, list: &[Variable]) -> Result<(), NoMemory>
    ensures { OnOk result (w.new ≡ types.each spec.variable list.now c.now w.old) }
{
    for v in list {
        variable(c, w, v)?;
    }
    Ok(())
}

/// Statements in braces: what they declare is known up to the end.
#[cycle(statement)]
#[tactic(auto, unfolding(crate::specs::Names::scope))]
fn scoped(c: &[EnumConstant], w: &mut Walk, body: &[Stmt]) -> Result<(), NoMemory>
    ensures { OnOk result (w.new ≡ spec.scoped (types.each spec.stmt body.now) c.now w.old) }
{
    let count = w.known.len();
    stmts(c, w, body)?;
    w.known.truncate(count);
    Ok(())
}

/// A branch of a par.
#[cycle(statement)]
#[tactic(auto, unfolding(crate::specs::Names::branch))]
fn branch(c: &[EnumConstant], w: &mut Walk, s: &Stmt) -> Result<(), NoMemory>
    ensures { OnOk result (w.new ≡ spec.par_branch s.now c.now w.old) }
{
    let (known, around, locals) = (w.known.len(), w.around.len(), w.locals.len());
    let start = w.start;
    w.around.push(start)?;
    w.start = locals;
    stmt(c, w, s)?;
    w.known.truncate(known);
    w.around.truncate(around);
    w.start = start;
    w.locals.truncate(locals);
    Ok(())
}

/// The branches of a par.
#[cycle(statement)]
fn branches(c: &[EnumConstant], w: &mut Walk, list: &[Stmt]) -> Result<(), NoMemory>
    ensures { OnOk result (w.new ≡ types.each spec.par_branch list.now c.now w.old) }
{
    for s in list {
        branch(c, w, s)?;
    }
    Ok(())
}

/// Statements.
#[cycle(statement)]
fn stmts(c: &[EnumConstant], w: &mut Walk, list: &[Stmt]) -> Result<(), NoMemory>
    ensures { OnOk result (w.new ≡ types.each spec.stmt list.now c.now w.old) }
{
    for s in list {
        stmt(c, w, s)?;
    }
    Ok(())
}

/// A statement that may be missing.
#[cycle(statement)]
fn other(c: &[EnumConstant], w: &mut Walk, s: &Option<Boxed<Stmt>>) -> Result<(), NoMemory>
    ensures { OnOk result (w.new ≡ types.optional spec.stmt s.now c.now w.old) }
{
    match s {
        None => Ok(()),
        Some(s) => stmt(c, w, s.get()),
    }
}

/// A statement.
#[cycle(statement)]
#[tactic(auto, using(crate::proofs::StatementsAre::stmt_is))]
pub(crate) fn stmt(c: &[EnumConstant], w: &mut Walk, s: &Stmt) -> Result<(), NoMemory>
    ensures { OnOk result (w.new ≡ spec.stmt s.now c.now w.old) }
{
    match s {
        Stmt::Block { body, .. } => scoped(c, w, body.as_slice()),
        Stmt::Declare {
            base,
            variables: list,
            ..
        } => {
            type_tree(c, w, base)?;
            variables(c, w, list.as_slice())
        }
        Stmt::Value { value, .. } => expr(c, w, value),
        Stmt::Label { body, .. } => stmt(c, w, body.get()),
        Stmt::If {
            condition,
            then,
            other: otherwise,
            ..
        } => {
            expr(c, w, condition)?;
            stmt(c, w, then.get())?;
            other(c, w, otherwise)
        }
        Stmt::While {
            condition,
            body,
            ..
        } => {
            expr(c, w, condition)?;
            stmt(c, w, body.get())
        }
        Stmt::Do {
            body,
            condition,
            ..
        } => {
            stmt(c, w, body.get())?;
            expr(c, w, condition)
        }
        Stmt::For {
            start,
            condition,
            step,
            body,
            ..
        } => {
            optional(c, w, start)?;
            optional(c, w, condition)?;
            optional(c, w, step)?;
            stmt(c, w, body.get())
        }
        Stmt::Switch { value, body, .. } => {
            expr(c, w, value)?;
            scoped(c, w, body.as_slice())
        }
        Stmt::Alt { body, .. } => scoped(c, w, body.as_slice()),
        Stmt::Case { value, .. } => expr(c, w, value),
        Stmt::Par { branches: list, .. } => branches(c, w, list.as_slice()),
        Stmt::Rescue { body, .. } => stmt(c, w, body.get()),
        Stmt::Return { value, .. } => optional(c, w, value),
        Stmt::Become { value, .. } => expr(c, w, value),
        Stmt::Alloc { places, .. } => exprs(c, w, places.as_slice()),
        Stmt::Unalloc { values, .. } => exprs(c, w, values.as_slice()),
        Stmt::Check { value, .. } => expr(c, w, value),
        Stmt::Proc { calls, .. } => exprs(c, w, calls.as_slice()),
        Stmt::Task { calls, .. } => exprs(c, w, calls.as_slice()),
        Stmt::Empty { .. }
        | Stmt::Default { .. }
        | Stmt::Raise { .. }
        | Stmt::Break { .. }
        | Stmt::Continue { .. }
        | Stmt::Goto { .. } => Ok(()),
    }
}

//! Scopes of parameters and locals.
ghost use Rattle.std.specs.Prelude.{◌≡◌, OnOk};
ghost use Rattle.al_declare.specs.Types as types;
ghost use Rattle.al_declare.specs.Statements as spec;

use crate::asked::Asked;
use crate::expression::{expr, exprs, optional};
use crate::text::Text;
use crate::type_tree::{dcl_bounds, type_tree};
use al_base::NoMemory;
use al_items::{Boxed, Items};
use al_tree::{Stmt, Variable};
use std::alloc::Global;

/// A local with the value that it starts with.
#[tactic(auto, unfolding(crate::specs::Statements::variable))]
fn variable(c: &Text, w: &mut Asked, v: &Variable) -> Result<(), NoMemory>
    ensures { OnOk result (w.new ≡ spec.variable v.now c.now w.old) }
{
    dcl_bounds(c, w, &v.dcl)?;
    w.local(v.dcl.name, c)?;
    optional(c, w, &v.value)
}

/// Locals.
fn variables(c: &Text, w: &mut Asked, list: &[Variable]) -> Result<(), NoMemory>
    ensures { OnOk result (w.new ≡ types.each spec.variable list.now c.now w.old) }
{
    for v in list {
        variable(c, w, v)?;
    }
    Ok(())
}

/// Statements in braces, which are a scope of their own.
#[cycle(statement)]
#[tactic(auto, unfolding(crate::specs::Asking::inner))]
fn scoped(alloc: Global, c: &Text, w: &mut Asked, body: &[Stmt]) -> Result<(), NoMemory>
    ensures { OnOk result (w.new ≡ spec.scoped (types.each spec.stmt body.now) c.now w.old) }
{
    let scope = w.begin_scope(alloc);
    stmts(alloc, c, w, body)?;
    w.end_scope(scope);
    Ok(())
}

/// Statements.
#[cycle(statement)]
fn stmts(alloc: Global, c: &Text, w: &mut Asked, list: &[Stmt]) -> Result<(), NoMemory>
    ensures { OnOk result (w.new ≡ types.each spec.stmt list.now c.now w.old) }
{
    for s in list {
        stmt(alloc, c, w, s)?;
    }
    Ok(())
}

/// A statement that may be missing.
#[cycle(statement)]
fn other(alloc: Global, c: &Text, w: &mut Asked, s: &Option<Boxed<Stmt>>) -> Result<(), NoMemory>
    ensures { OnOk result (w.new ≡ types.optional spec.stmt s.now c.now w.old) }
{
    match s {
        None => Ok(()),
        Some(s) => stmt(alloc, c, w, s.get()),
    }
}

/// A statement.
#[cycle(statement)]
#[tactic(auto, using(crate::proofs::StatementsAre::stmt_is))]
pub(crate) fn stmt(alloc: Global, c: &Text, w: &mut Asked, s: &Stmt) -> Result<(), NoMemory>
    ensures { OnOk result (w.new ≡ spec.stmt s.now c.now w.old) }
{
    match s {
        Stmt::Block { body, .. } => scoped(alloc, c, w, body.as_slice()),
        Stmt::Declare {
            base,
            variables: list,
            ..
        } => {
            type_tree(c, w, base)?;
            variables(c, w, list.as_slice())
        }
        Stmt::Value { value, .. } => expr(c, w, value),
        Stmt::Label { body, .. } => stmt(alloc, c, w, body.get()),
        Stmt::If {
            condition,
            then,
            other: otherwise,
            ..
        } => {
            expr(c, w, condition)?;
            stmt(alloc, c, w, then.get())?;
            other(alloc, c, w, otherwise)
        }
        Stmt::While {
            condition,
            body,
            ..
        } => {
            expr(c, w, condition)?;
            stmt(alloc, c, w, body.get())
        }
        Stmt::Do {
            body,
            condition,
            ..
        } => {
            stmt(alloc, c, w, body.get())?;
            expr(c, w, condition)
        }
        Stmt::For {
            start,
            condition,
            step,
            body,
            ..
        } => {
            optional(c, w, start)?;
            optional(c, w, condition)?;
            optional(c, w, step)?;
            stmt(alloc, c, w, body.get())
        }
        Stmt::Switch { value, body, .. } => {
            expr(c, w, value)?;
            scoped(alloc, c, w, body.as_slice())
        }
        Stmt::Alt { body, .. } => scoped(alloc, c, w, body.as_slice()),
        Stmt::Case { value, .. } => expr(c, w, value),
        Stmt::Par { branches: list, .. } => stmts(alloc, c, w, list.as_slice()),
        Stmt::Rescue { body, .. } => stmt(alloc, c, w, body.get()),
        Stmt::Return { value, .. } => optional(c, w, value),
        Stmt::Become { value, .. } => expr(c, w, value),
        Stmt::Alloc { places, .. } => exprs(c, w, places.as_slice()),
        Stmt::Unalloc { values, .. } => exprs(c, w, values.as_slice()),
        Stmt::Check { value, .. } => expr(c, w, value),
        Stmt::Proc { calls, .. } => exprs(c, w, calls.as_slice()),
        Stmt::Task { calls, .. } => exprs(c, w, calls.as_slice()),
        Stmt::Empty { .. }
        | Stmt::Default { .. }
        | Stmt::Raise { .. }
        | Stmt::Break { .. }
        | Stmt::Continue { .. }
        | Stmt::Goto { .. } => Ok(()),
    }
}

/// The body of a function, whose names are in the scope of its parameters.
#[tactic(auto, unfolding(crate::specs::Statements::body))]
pub(crate) fn body(alloc: Global, c: &Text, w: &mut Asked, s: &Stmt) -> Result<(), NoMemory>
    ensures { OnOk result (w.new ≡ spec.body s.now c.now w.old) }
{
    match s {
        Stmt::Block { body: list, .. } => stmts(alloc, c, w, list.as_slice()),
        _ => stmt(alloc, c, w, s),
    }
}

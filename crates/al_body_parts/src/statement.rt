//! Statements.
ghost use Rattle.std.specs.Prelude.{◌≡◌, false, IfOk, OnOk};
ghost use Rattle.al_typed.specs.Layout.{IsLaidOut};
ghost use Rattle.al_body_parts.specs.Expressions as expressions;
ghost use Rattle.al_body_parts.specs.Statements as spec;

use crate::expression::{expr, exprs, optional};
use crate::gathered::{nothing, push_base, push_label, push_local};
use crate::parts::Parts;
use al_base::NoMemory;
use al_environment::{Environment, Here, written_type};
use al_items::Boxed;
use al_tree::{Expr, Stmt, TypeTree, Variable};
use al_typed::Ty;
use std::alloc::Global;

/// A local of a base type, then the value that it starts with.
fn variable(
    alloc: Global,
    env: &Environment,
    here: &Here,
    base: &Option<Ty>,
    inside: bool,
    v: &Variable,
    parts: &mut Parts,
) -> Result<(), NoMemory>
    requires { IsLaidOut env.now.aggregates }
    ensures { OnOk result (parts.new ≡ spec.variable env.now here.now base.now v.now inside parts.old) }
{
    push_local(alloc, env, base, inside, &v.dcl, parts)?;
    optional(alloc, env, here, inside, &v.value, parts)
}

/// Locals of a base type.
fn locals(
    alloc: Global,
    env: &Environment,
    here: &Here,
    base: &Option<Ty>,
    inside: bool,
    list: &[Variable],
    parts: &mut Parts,
) -> Result<(), NoMemory>
    requires { IsLaidOut env.now.aggregates }
    ensures { OnOk result (parts.new ≡ expressions.each (spec.variable env.now here.now base.now) list.now inside parts.old) }
{
    for v in list {
        variable(alloc, env, here, base, inside, v, parts)?;
    }
    Ok(())
}

/// A declaration.
fn declaration(
    alloc: Global,
    env: &Environment,
    here: &Here,
    inside: bool,
    base: &TypeTree,
    list: &[Variable],
    parts: &mut Parts,
) -> Result<(), NoMemory>
    requires { IsLaidOut env.now.aggregates }
    ensures { OnOk result (parts.new ≡ spec.variables env.now here.now base.now list.now inside parts.old) }
{
    push_base(alloc, env, here, base, parts)?;
    let base = written_type(alloc, env, here, base)?;
    locals(alloc, env, here, &base, inside, list, parts)
}

/// The branches of a par.
#[cycle(statement)]
fn branches(
    alloc: Global,
    env: &Environment,
    here: &Here,
    inside: bool,
    list: &[Stmt],
    parts: &mut Parts,
) -> Result<(), NoMemory>
    requires { IsLaidOut env.now.aggregates }
    ensures { OnOk result (parts.new ≡ expressions.each (spec.in_branch env.now here.now) list.now inside parts.old) }
{
    for s in list {
        stmt(alloc, env, here, true, s, parts)?;
    }
    Ok(())
}

/// Statements.
#[cycle(statement)]
fn stmts(
    alloc: Global,
    env: &Environment,
    here: &Here,
    inside: bool,
    list: &[Stmt],
    parts: &mut Parts,
) -> Result<(), NoMemory>
    requires { IsLaidOut env.now.aggregates }
    ensures { OnOk result (parts.new ≡ expressions.each (spec.stmt env.now here.now) list.now inside parts.old) }
{
    for s in list {
        stmt(alloc, env, here, inside, s, parts)?;
    }
    Ok(())
}

/// A statement that may be missing.
#[cycle(statement)]
fn other(
    alloc: Global,
    env: &Environment,
    here: &Here,
    inside: bool,
    s: &Option<Boxed<Stmt>>,
    parts: &mut Parts,
) -> Result<(), NoMemory>
    requires { IsLaidOut env.now.aggregates }
    ensures { OnOk result (parts.new ≡ expressions.optional (spec.stmt env.now here.now) s.now inside parts.old) }
{
    match s {
        None => Ok(()),
        Some(s) => stmt(alloc, env, here, inside, s.get(), parts),
    }
}

/// What stands between the parentheses of a for.
fn head(
    alloc: Global,
    env: &Environment,
    here: &Here,
    inside: bool,
    start: &Option<Expr>,
    condition: &Option<Expr>,
    step: &Option<Expr>,
    parts: &mut Parts,
) -> Result<(), NoMemory>
    requires { IsLaidOut env.now.aggregates }
    ensures { OnOk result (parts.new ≡ spec.head env.now here.now start.now condition.now step.now inside parts.old) }
{
    optional(alloc, env, here, inside, start, parts)?;
    optional(alloc, env, here, inside, condition, parts)?;
    optional(alloc, env, here, inside, step, parts)
}

/// A statement, inside a branch of a par or outside.
#[cycle(statement)]
#[tactic(auto, using(crate::proofs::StatementsAre::stmt_is))]
fn stmt(
    alloc: Global,
    env: &Environment,
    here: &Here,
    inside: bool,
    s: &Stmt,
    parts: &mut Parts,
) -> Result<(), NoMemory>
    requires { IsLaidOut env.now.aggregates }
    ensures { OnOk result (parts.new ≡ spec.stmt env.now here.now s.now inside parts.old) }
{
    match s {
        Stmt::Block { body, .. } | Stmt::Alt { body, .. } => {
            stmts(alloc, env, here, inside, body.as_slice(), parts)
        }
        Stmt::Declare {
            base,
            variables,
            ..
        } => declaration(alloc, env, here, inside, base, variables.as_slice(), parts),
        Stmt::Value { value, .. }
        | Stmt::Case { value, .. }
        | Stmt::Become { value, .. }
        | Stmt::Check { value, .. } => expr(alloc, env, here, inside, value, parts),
        Stmt::Label { at, body, .. } | Stmt::Rescue { at, body, .. } => {
            push_label(parts, inside, *at)?;
            stmt(alloc, env, here, inside, body.get(), parts)
        }
        Stmt::If {
            condition,
            then,
            other: otherwise,
            ..
        } => {
            expr(alloc, env, here, inside, condition, parts)?;
            stmt(alloc, env, here, inside, then.get(), parts)?;
            other(alloc, env, here, inside, otherwise, parts)
        }
        Stmt::While {
            condition,
            body,
            ..
        } => {
            expr(alloc, env, here, inside, condition, parts)?;
            stmt(alloc, env, here, inside, body.get(), parts)
        }
        Stmt::Do {
            body,
            condition,
            ..
        } => {
            stmt(alloc, env, here, inside, body.get(), parts)?;
            expr(alloc, env, here, inside, condition, parts)
        }
        Stmt::For {
            start,
            condition,
            step,
            body,
            ..
        } => {
            head(alloc, env, here, inside, start, condition, step, parts)?;
            stmt(alloc, env, here, inside, body.get(), parts)
        }
        Stmt::Switch { value, body, .. } => {
            expr(alloc, env, here, inside, value, parts)?;
            stmts(alloc, env, here, inside, body.as_slice(), parts)
        }
        Stmt::Par { branches: list, .. } => {
            branches(alloc, env, here, inside, list.as_slice(), parts)
        }
        Stmt::Return { value, .. } => optional(alloc, env, here, inside, value, parts),
        Stmt::Alloc { places: list, .. }
        | Stmt::Unalloc { values: list, .. }
        | Stmt::Proc { calls: list, .. }
        | Stmt::Task { calls: list, .. } => {
            exprs(alloc, env, here, inside, list.as_slice(), parts)
        }
        Stmt::Empty { .. }
        | Stmt::Default { .. }
        | Stmt::Raise { .. }
        | Stmt::Break { .. }
        | Stmt::Continue { .. }
        | Stmt::Goto { .. } => Ok(()),
    }
}

/// What the body of a function or of a par branch declares and writes, in text order.
///
/// It is so in an environment where names of types and functions have meaning: in `here` the adt at hand counts alone.
#[tactic(auto, unfolding(crate::specs::Statements::parts))]
pub fn body_parts(
    alloc: Global,
    env: &Environment,
    here: &Here,
    body: &Stmt,
) -> Result<Parts, NoMemory>
    requires { IsLaidOut env.now.aggregates }
    ensures { IfOk result (λ found. found ≡ spec.parts env.now here.now body.now) }
{
    let mut found = nothing(alloc);
    stmt(alloc, env, here, false, body, &mut found)?;
    Ok(found)
}

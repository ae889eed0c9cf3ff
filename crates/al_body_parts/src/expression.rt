//! Expressions.
ghost use Rattle.std.specs.Prelude.{◌≡◌, false, OnOk};
ghost use Rattle.al_typed.specs.Layout.{IsLaidOut};
ghost use Rattle.al_environment.specs.declared.environment.Environment.{Environment};
ghost use Rattle.al_environment.specs.declared.environment.Here.{Here};
ghost use Rattle.al_body_parts.specs.Expressions as spec;

use crate::gathered::{push_text, push_type};
use crate::parts::Parts;
use al_base::{NoMemory, Place};
use al_environment::{Environment, Here};
use al_scope::Declaration;
use al_tree::Expr;
use std::alloc::Global;

/// Where an expression stands that is a name alone.
#[tactic(auto, using(crate::proofs::ExpressionsAre::name_is))]
fn name_of(e: &Expr) -> Option<Place>
    ensures { (env : Environment) (here : Here) → result ≡ spec.name_of env here e.now }
{
    match e {
        Expr::Name { at, .. } => Some(*at),
        Expr::Number { .. }
        | Expr::Char { .. }
        | Expr::Text { .. }
        | Expr::Nil { .. }
        | Expr::Tuple { .. }
        | Expr::Unary { .. }
        | Expr::Cast { .. }
        | Expr::SizeofType { .. }
        | Expr::SizeofValue { .. }
        | Expr::Index { .. }
        | Expr::Member { .. }
        | Expr::Call { .. }
        | Expr::Postfix { .. }
        | Expr::Binary { .. }
        | Expr::Iterator { .. }
        | Expr::Assign { .. }
        | Expr::Sequence { .. } => None,
    }
}

/// Whether an expression is a string constant.
#[tactic(auto, using(crate::proofs::ExpressionsAre::text_is))]
fn is_text(e: &Expr) -> bool
    ensures { (env : Environment) (here : Here) → result ≡ spec.is_text_at env here e.now }
{
    match e {
        Expr::Text { .. } => true,
        Expr::Number { .. }
        | Expr::Char { .. }
        | Expr::Nil { .. }
        | Expr::Name { .. }
        | Expr::Tuple { .. }
        | Expr::Unary { .. }
        | Expr::Cast { .. }
        | Expr::SizeofType { .. }
        | Expr::SizeofValue { .. }
        | Expr::Index { .. }
        | Expr::Member { .. }
        | Expr::Call { .. }
        | Expr::Postfix { .. }
        | Expr::Binary { .. }
        | Expr::Iterator { .. }
        | Expr::Assign { .. }
        | Expr::Sequence { .. } => false,
    }
}

/// Whether a name stands for print.
fn is_print(env: &Environment, name: Option<Place>) -> bool
    ensures { result ≡ spec.is_print env.now.scopes.names name }
{
    match name {
        None => false,
        Some(at) => matches!(env.scopes.declaration(at), Some(Declaration::Print)),
    }
}

/// Expressions.
#[cycle(expression)]
pub(crate) fn exprs(
    alloc: Global,
    env: &Environment,
    here: &Here,
    inside: bool,
    list: &[Expr],
    parts: &mut Parts,
) -> Result<(), NoMemory>
    requires { IsLaidOut env.now.aggregates }
    ensures { OnOk result (parts.new ≡ spec.each (spec.expr env.now here.now) list.now inside parts.old) }
{
    for e in list {
        expr(alloc, env, here, inside, e, parts)?;
    }
    Ok(())
}

/// Two expressions.
#[cycle(expression)]
fn two(
    alloc: Global,
    env: &Environment,
    here: &Here,
    inside: bool,
    a: &Expr,
    b: &Expr,
    parts: &mut Parts,
) -> Result<(), NoMemory>
    requires { IsLaidOut env.now.aggregates }
    ensures { OnOk result (parts.new ≡ spec.expr env.now here.now b.now inside (spec.expr env.now here.now a.now inside parts.old)) }
{
    expr(alloc, env, here, inside, a, parts)?;
    expr(alloc, env, here, inside, b, parts)
}

/// The arguments of a call. The format of a print makes no block.
#[cycle(expression)]
fn arguments(
    alloc: Global,
    env: &Environment,
    here: &Here,
    inside: bool,
    is_print: bool,
    list: &[Expr],
    parts: &mut Parts,
) -> Result<(), NoMemory>
    requires { IsLaidOut env.now.aggregates }
    ensures { OnOk result (parts.new ≡ spec.arguments env.now here.now is_print list.now inside parts.old) }
{
    if is_print {
        if let [first, others @ ..] = list {
            if is_text(first) {
                return exprs(alloc, env, here, inside, others, parts);
            }
        }
    }
    exprs(alloc, env, here, inside, list, parts)
}

/// An expression, inside a branch of a par or outside.
#[cycle(expression)]
#[tactic(auto, using(crate::proofs::ExpressionsAre::expr_is))]
pub(crate) fn expr(
    alloc: Global,
    env: &Environment,
    here: &Here,
    inside: bool,
    e: &Expr,
    parts: &mut Parts,
) -> Result<(), NoMemory>
    requires { IsLaidOut env.now.aggregates }
    ensures { OnOk result (parts.new ≡ spec.expr env.now here.now e.now inside parts.old) }
{
    match e {
        Expr::Number { .. } | Expr::Char { .. } | Expr::Nil { .. } | Expr::Name { .. } => Ok(()),
        Expr::Text { at, bytes } => push_text(alloc, parts, *at, bytes.as_slice()),
        Expr::SizeofType { at, of } => push_type(alloc, env, here, *at, of, parts),
        Expr::Tuple { parts: list, .. } | Expr::Sequence { parts: list, .. } => {
            exprs(alloc, env, here, inside, list.as_slice(), parts)
        }
        Expr::Cast { at, to, operand } => {
            push_type(alloc, env, here, *at, to, parts)?;
            expr(alloc, env, here, inside, operand.get(), parts)
        }
        Expr::Unary { operand, .. } | Expr::Postfix { operand, .. } => {
            expr(alloc, env, here, inside, operand.get(), parts)
        }
        Expr::SizeofValue { of, .. } | Expr::Member { of, .. } => {
            expr(alloc, env, here, inside, of.get(), parts)
        }
        Expr::Index { of, index, .. } => {
            two(alloc, env, here, inside, of.get(), index.get(), parts)
        }
        Expr::Call {
            callee,
            arguments: list,
            ..
        } => {
            let is_print = is_print(env, name_of(callee.get()));
            expr(alloc, env, here, inside, callee.get(), parts)?;
            arguments(alloc, env, here, inside, is_print, list.as_slice(), parts)
        }
        Expr::Binary { left, right, .. } | Expr::Assign { left, right, .. } => {
            two(alloc, env, here, inside, left.get(), right.get(), parts)
        }
        Expr::Iterator { from, to, .. } => {
            two(alloc, env, here, inside, from.get(), to.get(), parts)
        }
    }
}

/// An expression that may be missing.
pub(crate) fn optional(
    alloc: Global,
    env: &Environment,
    here: &Here,
    inside: bool,
    e: &Option<Expr>,
    parts: &mut Parts,
) -> Result<(), NoMemory>
    requires { IsLaidOut env.now.aggregates }
    ensures { OnOk result (parts.new ≡ spec.optional (spec.expr env.now here.now) e.now inside parts.old) }
{
    match e {
        None => Ok(()),
        Some(e) => expr(alloc, env, here, inside, e, parts),
    }
}

/// What an expression in an initializer of a global writes, behind what was gathered.
///
/// It is so in an environment where names of types and functions have meaning.
pub fn push_expression(
    alloc: Global,
    env: &Environment,
    here: &Here,
    e: &Expr,
    parts: &mut Parts,
) -> Result<(), NoMemory>
    requires { IsLaidOut env.now.aggregates }
    ensures { OnOk result (parts.new ≡ spec.expr env.now here.now e.now false parts.old) }
{
    expr(alloc, env, here, false, e, parts)
}

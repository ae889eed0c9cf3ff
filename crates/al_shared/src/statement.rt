//! Statements.
ghost use Rattle.std.specs.Prelude.{◌≡◌, false, replicate, IfOk};
ghost use Rattle.al_shared.specs.Expressions as expressions;
ghost use Rattle.al_shared.specs.Statements as spec;

use crate::expression::{expr, exprs, optional};
use al_base::NoMemory;
use al_items::{Boxed, Items};
use al_scope::Names;
use al_tree::{Stmt, Variable};
use std::alloc::Global;

/// Locals with the values that they start with.
fn variables(names: &Names, round: usize, inside: bool, list: &[Variable], marks: &mut Items<bool>)
    ensures { marks.new ≡ expressions.each (spec.variable names.now round) list.now inside marks.old }
{
    for v in list {
        optional(names, round, inside, &v.value, marks);
    }
}

/// The branches of a par.
#[cycle(statement)]
fn branches(names: &Names, round: usize, inside: bool, list: &[Stmt], marks: &mut Items<bool>)
    ensures { marks.new ≡ expressions.each (spec.in_branch names.now round) list.now inside marks.old }
{
    for s in list {
        stmt(names, round, true, s, marks);
    }
}

/// Statements.
#[cycle(statement)]
fn stmts(names: &Names, round: usize, inside: bool, list: &[Stmt], marks: &mut Items<bool>)
    ensures { marks.new ≡ expressions.each (spec.stmt names.now round) list.now inside marks.old }
{
    for s in list {
        stmt(names, round, inside, s, marks);
    }
}

/// A statement that may be missing.
#[cycle(statement)]
fn other(
    names: &Names,
    round: usize,
    inside: bool,
    s: &Option<Boxed<Stmt>>,
    marks: &mut Items<bool>,
)
    ensures { marks.new ≡ expressions.optional (spec.stmt names.now round) s.now inside marks.old }
{
    match s {
        None => (),
        Some(s) => stmt(names, round, inside, s.get(), marks),
    }
}

/// A statement, inside a branch of a par or outside.
#[cycle(statement)]
#[tactic(auto, using(crate::proofs::StatementsAre::stmt_is))]
fn stmt(names: &Names, round: usize, inside: bool, s: &Stmt, marks: &mut Items<bool>)
    ensures { marks.new ≡ spec.stmt names.now round s.now inside marks.old }
{
    match s {
        Stmt::Block { body, .. } | Stmt::Alt { body, .. } => {
            stmts(names, round, inside, body.as_slice(), marks)
        }
        Stmt::Declare {
            variables: list,
            ..
        } => variables(names, round, inside, list.as_slice(), marks),
        Stmt::Value { value, .. }
        | Stmt::Case { value, .. }
        | Stmt::Become { value, .. }
        | Stmt::Check { value, .. } => expr(names, round, inside, value, marks),
        Stmt::Label { body, .. } | Stmt::Rescue { body, .. } => {
            stmt(names, round, inside, body.get(), marks)
        }
        Stmt::If {
            condition,
            then,
            other: otherwise,
            ..
        } => {
            expr(names, round, inside, condition, marks);
            stmt(names, round, inside, then.get(), marks);
            other(names, round, inside, otherwise, marks);
        }
        Stmt::While {
            condition,
            body,
            ..
        } => {
            expr(names, round, inside, condition, marks);
            stmt(names, round, inside, body.get(), marks);
        }
        Stmt::Do {
            body,
            condition,
            ..
        } => {
            stmt(names, round, inside, body.get(), marks);
            expr(names, round, inside, condition, marks);
        }
        Stmt::For {
            start,
            condition,
            step,
            body,
            ..
        } => {
            optional(names, round, inside, start, marks);
            optional(names, round, inside, condition, marks);
            optional(names, round, inside, step, marks);
            stmt(names, round, inside, body.get(), marks);
        }
        Stmt::Switch { value, body, .. } => {
            expr(names, round, inside, value, marks);
            stmts(names, round, inside, body.as_slice(), marks);
        }
        Stmt::Par { branches: list, .. } => {
            branches(names, round, inside, list.as_slice(), marks)
        }
        Stmt::Return { value, .. } => optional(names, round, inside, value, marks),
        Stmt::Alloc { places: list, .. }
        | Stmt::Unalloc { values: list, .. }
        | Stmt::Proc { calls: list, .. }
        | Stmt::Task { calls: list, .. } => exprs(names, round, inside, list.as_slice(), marks),
        Stmt::Empty { .. }
        | Stmt::Default { .. }
        | Stmt::Raise { .. }
        | Stmt::Break { .. }
        | Stmt::Continue { .. }
        | Stmt::Goto { .. } => (),
    }
}

/// Which of the first `count` parameters and locals of a function with that body are shared beside those of types that always
/// are: those whose address the function takes, and those that a branch of a par in it names.
///
/// So many functions are `round` the function. The marks have the numbers of `Declaration::Local`.
#[tactic(auto, unfolding(crate::specs::Statements::shared))]
pub fn shared(
    alloc: Global,
    names: &Names,
    round: usize,
    count: usize,
    body: &Stmt,
) -> Result<Items<bool>, NoMemory>
    ensures { IfOk result (λ marks. marks ≡ spec.shared names.now round count body.now) }
{
    let mut marks = unmarked(alloc, count)?;
    stmt(names, round, false, body, &mut marks);
    Ok(marks)
}

/// None of so many is marked.
#[tactic(auto, using(crate::proofs::Marking::unmarked_more))]
fn unmarked(alloc: Global, count: usize) -> Result<Items<bool>, NoMemory>
    ensures { IfOk result (λ marks. marks ≡ replicate count false) }
{
    let mut marks = Items::with_capacity(alloc, count)?;
    for _ in 0..count {
        marks.push(false)?;
    }
    Ok(marks)
}
